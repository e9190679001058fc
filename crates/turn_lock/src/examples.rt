// The steps on an example, which the check computes.
ghost use Rattle.turn_lock.specs.Examples.{ExampleOfSteps};

pub fn example_of_steps()
    ensures { ExampleOfSteps }
{}
