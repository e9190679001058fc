//! The JSON texts that replies are made of: terms, objects with a gap for the number of entries, and refusals.
#![tactic(auto)]

mod context;
mod examples;
mod laws;
mod members;
mod refusals;
mod shown;

pub use context::{array_text, context_json, shown_names};
pub use laws::{level_names_fit, shown_names_fit};
pub use members::{Member, Members};
pub use refusals::{
    fault_members, fuel_members, goal_members, no_expected_members, no_goal_members,
    no_item_members, out_of_scope_members, plain_members, scope_members, syntax_members,
    taken_members, unknown_name_members, unsolved_members, wrong_count_members,
};
pub use shown::{level_names, term_json};

#[cfg(test)]
mod tests;
