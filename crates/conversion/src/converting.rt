ghost use Rattle.std.specs.Prelude.{◌≤◌, All};
ghost use Rattle.ld_terms.specs.Views.{Keeps};
ghost use Rattle.conversion.specs.Answers.{IsAnswer};
ghost use Rattle.conversion.specs.Conversion as tree;
ghost use Rattle.conversion.specs.Globals.{env_of, AreGlobalsOf};
ghost use Rattle.conversion.specs.Spines.{BothHeld, by_forms, by_parts, by_twins, pairs_back};

use crate::pairs::{is_defined, pairs_of};
use crate::weak_head::whnf;
use ld_terms::{Fuel, Globals, Halt, Terms};
use std::alloc::Global;

/// Whether two terms are βδ-equal, by comparison of their parts. Equal trees cost nothing. Else one unit is spent; the same defined
/// constant at both heads is compared by its arguments first, and where that is no Yes, both terms are brought to weak head form and
/// their parts are compared from left to right, up to the first No. Older handles keep their meaning.
///
/// It is [`Halt::Fuel`] exactly where a unit is wanted and none is left, and the fuel is then 0. Want of memory may come at any time.
#[cycle(converting)]
pub fn conv<T: Terms, G: Globals<T::Handle>>(
    alloc: Global,
    terms: &mut T,
    globals: &G,
    fuel: &mut Fuel,
    a: T::Handle,
    b: T::Handle,
) -> Result<bool, Halt>
    requires left { T.holds terms.old a }
    requires right { T.holds terms.old b }
    requires globals { AreGlobalsOf (T.holds terms.old) (G.items globals.now) (G.metas globals.now) }
    ensures value { IsAnswer (λ equal. equal) (tree.conv (env_of (T.means terms.old) (G.items globals.now) (G.metas globals.now)) (T.means terms.old a) (T.means terms.old b) fuel.old) fuel.new result }
    ensures less { fuel.new ≤ fuel.old }
    ensures kept { Keeps (T.holds terms.old) (T.means terms.old) (T.holds terms.new) (T.means terms.new) }
{
    if terms.same(a, b) {
        return Ok(true);
    }
    if !fuel.spend() {
        return Err(Halt::Fuel);
    }
    if conv_twins(alloc, terms, globals, fuel, a, b)? {
        return Ok(true);
    }
    conv_forms(alloc, terms, globals, fuel, a, b)
}

/// Whether the same defined constant stands at both heads, with equally many arguments, and the parts are βδ-equal.
#[cycle(converting)]
fn conv_twins<T: Terms, G: Globals<T::Handle>>(
    alloc: Global,
    terms: &mut T,
    globals: &G,
    fuel: &mut Fuel,
    a: T::Handle,
    b: T::Handle,
) -> Result<bool, Halt>
    requires left { T.holds terms.old a }
    requires right { T.holds terms.old b }
    requires globals { AreGlobalsOf (T.holds terms.old) (G.items globals.now) (G.metas globals.now) }
    ensures value { IsAnswer (λ equal. equal) (by_twins (env_of (T.means terms.old) (G.items globals.now) (G.metas globals.now)) (T.means terms.old a) (T.means terms.old b) fuel.old) fuel.new result }
    ensures less { fuel.new ≤ fuel.old }
    ensures kept { Keeps (T.holds terms.old) (T.means terms.old) (T.holds terms.new) (T.means terms.new) }
{
    if !is_defined(terms, globals, a) {
        return Ok(false);
    }
    conv_parts(alloc, terms, globals, fuel, a, b)
}

/// Whether the weak head forms of two terms are of one kind and have βδ-equal parts.
#[cycle(converting)]
fn conv_forms<T: Terms, G: Globals<T::Handle>>(
    alloc: Global,
    terms: &mut T,
    globals: &G,
    fuel: &mut Fuel,
    a: T::Handle,
    b: T::Handle,
) -> Result<bool, Halt>
    requires left { T.holds terms.old a }
    requires right { T.holds terms.old b }
    requires globals { AreGlobalsOf (T.holds terms.old) (G.items globals.now) (G.metas globals.now) }
    ensures value { IsAnswer (λ equal. equal) (by_forms (env_of (T.means terms.old) (G.items globals.now) (G.metas globals.now)) (T.means terms.old a) (T.means terms.old b) fuel.old) fuel.new result }
    ensures less { fuel.new ≤ fuel.old }
    ensures kept { Keeps (T.holds terms.old) (T.means terms.old) (T.holds terms.new) (T.means terms.new) }
{
    let a_form = whnf(alloc, terms, globals, fuel, a)?;
    let b_form = whnf(alloc, terms, globals, fuel, b)?;
    conv_parts(alloc, terms, globals, fuel, a_form, b_form)
}

/// Whether two terms as they stand are of one kind and have βδ-equal parts.
#[cycle(converting)]
fn conv_parts<T: Terms, G: Globals<T::Handle>>(
    alloc: Global,
    terms: &mut T,
    globals: &G,
    fuel: &mut Fuel,
    a: T::Handle,
    b: T::Handle,
) -> Result<bool, Halt>
    requires left { T.holds terms.old a }
    requires right { T.holds terms.old b }
    requires globals { AreGlobalsOf (T.holds terms.old) (G.items globals.now) (G.metas globals.now) }
    ensures value { IsAnswer (λ equal. equal) (by_parts (env_of (T.means terms.old) (G.items globals.now) (G.metas globals.now)) (T.means terms.old a) (T.means terms.old b) fuel.old) fuel.new result }
    ensures less { fuel.new ≤ fuel.old }
    ensures kept { Keeps (T.holds terms.old) (T.means terms.old) (T.holds terms.new) (T.means terms.new) }
{
    match pairs_of(alloc, terms, a, b)? {
        Some(pairs) => conv_each(alloc, terms, globals, fuel, pairs),
        None => Ok(false),
    }
}

/// Whether the terms of each pair are βδ-equal. The last pair comes first, and the first No ends it.
#[cycle(converting)]
fn conv_each<T: Terms, G: Globals<T::Handle>>(
    alloc: Global,
    terms: &mut T,
    globals: &G,
    fuel: &mut Fuel,
    mut pairs: Vec<(T::Handle, T::Handle)>,
) -> Result<bool, Halt>
    requires pairs { All (BothHeld (T.holds terms.old)) pairs.items }
    requires globals { AreGlobalsOf (T.holds terms.old) (G.items globals.now) (G.metas globals.now) }
    ensures value { IsAnswer (λ equal. equal) (tree.convert_each (tree.conv (env_of (T.means terms.old) (G.items globals.now) (G.metas globals.now))) (pairs_back (T.means terms.old) pairs.items) fuel.old) fuel.new result }
    ensures less { fuel.new ≤ fuel.old }
    ensures kept { Keeps (T.holds terms.old) (T.means terms.old) (T.holds terms.new) (T.means terms.new) }
{
    while let Some(pair) = pairs.pop() {
        if !conv(alloc, terms, globals, fuel, pair.0, pair.1)? {
            return Ok(false);
        }
    }
    Ok(true)
}
