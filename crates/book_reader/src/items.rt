//! The check of one item behind an environment.

ghost use Rattle.std.specs.Prelude.{◌≡◌, ◌≤◌, ◌<◌, [], All, IfOk, OnOk, length, ℕ, List as Listed};
ghost use Rattle.ld_trees.specs.Term.{Term};
ghost use Rattle.ld_terms.specs.Views.{Keeps};
ghost use Rattle.ld_terms.specs.declared.globals.Item.{Item};
ghost use Rattle.ld_terms.specs.declared.globals.Local.{Local};
ghost use Rattle.conversion.specs.Globals.{AreLocals, IsItemOf, IsOptional};
ghost use Rattle.kernel_check.specs.Inference.{infer};
ghost use Rattle.meta_context.specs.Entered.{MayEnter};
ghost use Rattle.meta_context.specs.Plain.{plain_item, plain_items, plain_locals, rules_env, rules_ctx};
ghost use Rattle.std.specs.Option.{option_map};
ghost use Rattle.book_reader.specs.Checked.{Answers, IsNewName, IsRead};
ghost use Rattle.book_reader.specs.Items as spec;
ghost use Rattle.book_reader.specs.Named.{HasNames, IsNamed};

use crate::checked::ItemFault;
use crate::parameters::Parameters;
use crate::source::{Parameter, Source};
use conversion::conv;
use kernel_check::{KernelFault, infer, infer_sort};
use ld_terms::{Fuel, Item, Name, Terms};
use meta_context::Env;
use std::alloc::Global;
use term_text::{Surface, scope_term};

/// The item that a source says behind an environment, with units of fuel.
pub fn check_item<T: Terms>(
    alloc: Global,
    terms: &mut T,
    env: &Env<T::Handle>,
    fuel: &mut Fuel,
    source: &Source,
) -> Result<Item<T::Handle>, ItemFault<T::Handle>>
    requires items { All (IsItemOf (T.holds terms.old)) env.now }
    requires named { HasNames source.now }
    ensures value { (Δ : Listed (Item Term)) → plain_items (T.means terms.old) env.now ≡ Δ → Answers (T.holds terms.new) (T.means terms.new) (plain_item (T.means terms.new)) (spec.item Δ source.now fuel.old) fuel.new result }
    ensures held { IfOk result (IsItemOf (T.holds terms.new)) }
    ensures may { IfOk result (MayEnter env.now) }
    ensures kept { Keeps (T.holds terms.old) (T.means terms.old) (T.holds terms.new) (T.means terms.new) }
{
    new_name(alloc, env, &source.name)?;
    let params = check_parameters(alloc, terms, env, fuel, source.params.as_slice())?;
    let ty = check_type(alloc, terms, env, fuel, &params, &source.ty)?;
    let body = check_optional(alloc, terms, env, fuel, &params, ty, &source.body)?;
    let name = source.name.copy(alloc)?;
    Ok(Item {
        name,
        params: params.into_locals(),
        ty,
        body,
    })
}

/// Refuses a name that an item has.
fn new_name<H: Copy>(alloc: Global, env: &Env<H>, name: &Name) -> Result<(), ItemFault<H>>
    ensures { IsNewName env.now name.now result }
{
    match env.find(name) {
        None => Ok(()),
        Some(_) => {
            let name = name.copy(alloc)?;
            Err(ItemFault::NameTaken(name))
        }
    }
}

/// The parameters, from left to right.
fn check_parameters<T: Terms>(
    alloc: Global,
    terms: &mut T,
    env: &Env<T::Handle>,
    fuel: &mut Fuel,
    sources: &[Parameter],
) -> Result<Parameters<T::Handle>, ItemFault<T::Handle>>
    requires items { All (IsItemOf (T.holds terms.old)) env.now }
    requires named { All (λ p. IsNamed p.name) sources.now }
    ensures value { (Δ : Listed (Item Term)) → plain_items (T.means terms.old) env.now ≡ Δ → Answers (T.holds terms.new) (T.means terms.new) (plain_locals (T.means terms.new)) (spec.parameters Δ [] sources.now fuel.old) fuel.new result }
    ensures held { IfOk result (AreLocals (T.holds terms.new)) }
    ensures kept { Keeps (T.holds terms.old) (T.means terms.old) (T.holds terms.new) (T.means terms.new) }
{
    let mut params = Parameters::new(alloc);
    for source in sources {
        let ty = check_type(alloc, terms, env, fuel, &params, &source.ty)?;
        params = params.with(alloc, &source.name, ty)?;
    }
    Ok(params)
}

/// A type behind the parameters so far.
fn check_type<T: Terms>(
    alloc: Global,
    terms: &mut T,
    env: &Env<T::Handle>,
    fuel: &mut Fuel,
    params: &Parameters<T::Handle>,
    text: &Surface,
) -> Result<T::Handle, ItemFault<T::Handle>>
    requires items { All (IsItemOf (T.holds terms.old)) env.now }
    requires params { AreLocals (T.holds terms.old) params.now }
    ensures value { (Δ : Listed (Item Term)) (Γ : Listed (Local Term)) → IsRead (T.means terms.old) env.now params.now Δ Γ → Answers (T.holds terms.new) (T.means terms.new) (T.means terms.new) (spec.typed Δ Γ text.now fuel.old) fuel.new result }
    ensures held { IfOk result (T.holds terms.new) }
    ensures kept { Keeps (T.holds terms.old) (T.means terms.old) (T.holds terms.new) (T.means terms.new) }
{
    let ty = resolve(alloc, terms, env, params, text)?;
    find_sort(alloc, terms, env, fuel, params, ty)?;
    Ok(ty)
}

/// A definition's body, where there is one.
fn check_optional<T: Terms>(
    alloc: Global,
    terms: &mut T,
    env: &Env<T::Handle>,
    fuel: &mut Fuel,
    params: &Parameters<T::Handle>,
    ty: T::Handle,
    text: &Option<Surface>,
) -> Result<Option<T::Handle>, ItemFault<T::Handle>>
    requires items { All (IsItemOf (T.holds terms.old)) env.now }
    requires params { AreLocals (T.holds terms.old) params.now }
    requires ty { T.holds terms.old ty }
    ensures value { (Δ : Listed (Item Term)) (Γ : Listed (Local Term)) (A : Term) → IsRead (T.means terms.old) env.now params.now Δ Γ → T.means terms.old ty ≡ A → Answers (T.holds terms.new) (T.means terms.new) (option_map (T.means terms.new)) (spec.optional_body Δ Γ A text.now fuel.old) fuel.new result }
    ensures held { IfOk result (IsOptional (T.holds terms.new)) }
    ensures kept { Keeps (T.holds terms.old) (T.means terms.old) (T.holds terms.new) (T.means terms.new) }
{
    match text {
        None => Ok(None),
        Some(text) => {
            let body = check_body(alloc, terms, env, fuel, params, ty, text)?;
            Ok(Some(body))
        }
    }
}

/// A definition's body, the type of which is converted with the stated one.
fn check_body<T: Terms>(
    alloc: Global,
    terms: &mut T,
    env: &Env<T::Handle>,
    fuel: &mut Fuel,
    params: &Parameters<T::Handle>,
    ty: T::Handle,
    text: &Surface,
) -> Result<T::Handle, ItemFault<T::Handle>>
    requires items { All (IsItemOf (T.holds terms.old)) env.now }
    requires params { AreLocals (T.holds terms.old) params.now }
    requires ty { T.holds terms.old ty }
    ensures value { (Δ : Listed (Item Term)) (Γ : Listed (Local Term)) (A : Term) → IsRead (T.means terms.old) env.now params.now Δ Γ → T.means terms.old ty ≡ A → Answers (T.holds terms.new) (T.means terms.new) (T.means terms.new) (spec.body Δ Γ A text.now fuel.old) fuel.new result }
    ensures held { IfOk result (T.holds terms.new) }
    ensures kept { Keeps (T.holds terms.old) (T.means terms.old) (T.holds terms.new) (T.means terms.new) }
{
    let body = resolve(alloc, terms, env, params, text)?;
    let found = find_type(alloc, terms, env, fuel, params, body)?;
    convert(alloc, terms, env, fuel, params.as_slice().len(), found, ty)?;
    Ok(body)
}

/// The term that a text means behind the parameters.
fn resolve<T: Terms>(
    alloc: Global,
    terms: &mut T,
    env: &Env<T::Handle>,
    params: &Parameters<T::Handle>,
    text: &Surface,
) -> Result<T::Handle, ItemFault<T::Handle>>
    ensures value { (Δ : Listed (Item Term)) (Γ : Listed (Local Term)) (n : ℕ) → IsRead (T.means terms.old) env.now params.now Δ Γ → Answers (T.holds terms.new) (T.means terms.new) (T.means terms.new) (spec.resolved Δ Γ text.now n) n result }
    ensures held { IfOk result (T.holds terms.new) }
    ensures kept { Keeps (T.holds terms.old) (T.means terms.old) (T.holds terms.new) (T.means terms.new) }
{
    Ok(scope_term(alloc, terms, env, params.names(), text)?)
}

/// Sees that a term has a sort behind the parameters.
fn find_sort<T: Terms>(
    alloc: Global,
    terms: &mut T,
    env: &Env<T::Handle>,
    fuel: &mut Fuel,
    params: &Parameters<T::Handle>,
    h: T::Handle,
) -> Result<(), ItemFault<T::Handle>>
    requires items { All (IsItemOf (T.holds terms.old)) env.now }
    requires params { AreLocals (T.holds terms.old) params.now }
    requires term { T.holds terms.old h }
    ensures value { (Δ : Listed (Item Term)) (Γ : Listed (Local Term)) (t : Term) → IsRead (T.means terms.old) env.now params.now Δ Γ → T.means terms.old h ≡ t → Answers (T.holds terms.new) (T.means terms.new) (λ u. u) (spec.sorted Δ Γ t fuel.old) fuel.new result }
    ensures kept { Keeps (T.holds terms.old) (T.means terms.old) (T.holds terms.new) (T.means terms.new) }
{
    infer_sort(alloc, terms, env, fuel, params.as_slice(), h)?;
    Ok(())
}

/// The type of a term behind the parameters.
fn find_type<T: Terms>(
    alloc: Global,
    terms: &mut T,
    env: &Env<T::Handle>,
    fuel: &mut Fuel,
    params: &Parameters<T::Handle>,
    h: T::Handle,
) -> Result<T::Handle, ItemFault<T::Handle>>
    requires items { All (IsItemOf (T.holds terms.old)) env.now }
    requires params { AreLocals (T.holds terms.old) params.now }
    requires term { T.holds terms.old h }
    ensures value { (Δ : Listed (Item Term)) (Γ : Listed (Local Term)) (t : Term) → IsRead (T.means terms.old) env.now params.now Δ Γ → T.means terms.old h ≡ t → Answers (T.holds terms.new) (T.means terms.new) (T.means terms.new) (spec.kernel (infer (rules_env Δ) (rules_ctx Γ) t) fuel.old) fuel.new result }
    ensures held { IfOk result (T.holds terms.new) }
    ensures kept { Keeps (T.holds terms.old) (T.means terms.old) (T.holds terms.new) (T.means terms.new) }
{
    Ok(infer(alloc, terms, env, fuel, params.as_slice(), h)?)
}

/// Converts the type that was found, behind so many parameters, with the stated one.
fn convert<T: Terms>(
    alloc: Global,
    terms: &mut T,
    env: &Env<T::Handle>,
    fuel: &mut Fuel,
    depth: usize,
    found: T::Handle,
    wanted: T::Handle,
) -> Result<(), ItemFault<T::Handle>>
    requires items { All (IsItemOf (T.holds terms.old)) env.now }
    requires few { depth < 999999000 }
    requires found { T.holds terms.old found }
    requires wanted { T.holds terms.old wanted }
    ensures value { (Δ : Listed (Item Term)) (F W : Term) → plain_items (T.means terms.old) env.now ≡ Δ → T.means terms.old found ≡ F → T.means terms.old wanted ≡ W → Answers (T.holds terms.new) (T.means terms.new) (λ u. u) (spec.fits Δ depth F W fuel.old) fuel.new result }
    ensures kept { Keeps (T.holds terms.old) (T.means terms.old) (T.holds terms.new) (T.means terms.new) }
{
    if conv(alloc, terms, env, fuel, found, wanted)? {
        return Ok(());
    }
    let depth = depth as u32;
    Err(ItemFault::Kernel(KernelFault::Mismatch {
        depth,
        found,
        wanted,
    }))
}
