//! Worked examples.

ghost use Rattle.term_store.specs.Examples.{ExampleOfAProduct, ExampleOfASubstitution};

/// Worked examples of stores, which the checker computes.
pub fn stores_compute()
    ensures product { ExampleOfAProduct }
    ensures substitution { ExampleOfASubstitution }
{}
