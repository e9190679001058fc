// A list that is changed three times, which the check computes.
ghost use Rattle.shared_list.specs.Examples.{ExampleOfPuts};

pub fn example_of_puts()
    ensures { ExampleOfPuts }
{}
