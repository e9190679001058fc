// A map of one key, which the check computes.
ghost use Rattle.shared_map.specs.Examples.{ExampleOfPuts};

pub fn example_of_puts()
    ensures { ExampleOfPuts }
{}
