//! For each name in a namespace, the number of the first that came with it. The names are told by
//! their numbers.

ghost use Rattle.std.specs.Prelude.{◌≡◌, ◌++◌, ◌∷◌, [], ◌<◌, ℕ, IfOk, OnOk, Some, false, true, if◌then◌else◌, is_some, map, vec_len};
ghost use Rattle.std.specs.Map.{lookup};
ghost use Rattle.std.specs.Option.{option_or};
ghost use Rattle.snl_scope.specs.declared.names.namespaces.QualifiedName.{QualifiedName};
ghost use Rattle.snl_scope.specs.declared.names.namespaces.Namespace.{Namespace};
ghost use Rattle.snl_scope.specs.NameTables.{AreSame, IsPut, TellsInner, is_inner, is_program, name_head, nearest_under, number_under, same_key};

use crate::names::namespaces::{Namespace, QualifiedName};
use snl_cut::OutOfMemory;
use snl_numbers::{Keys, NumbersByKey};
use std::alloc::Global;

/// What the program has under a name, and whether a state set or a state may have something under
/// it, too.
#[derive(Clone, Copy)]
pub(crate) struct NameHead {
    pub in_program: Option<usize>,
    pub is_inner: bool,
}

/// The numbers of the first that came. Most names are the program's alone, and these are found with
/// no look-up in a table.
pub struct FirstNumbers {
    pub(crate) heads: Vec<NameHead>,
    // those that are elsewhere
    pub(crate) elsewhere: NumbersByKey<QualifiedName>,
    // all, in the order in which they came
    pub(crate) numbers: Vec<usize>,
}

// By hand, so that whoever holds numbers need not know how they are held to let them go.
impl Drop for FirstNumbers {
    fn drop(self) {
        let FirstNumbers {
            heads: _,
            elsewhere: _,
            numbers: _,
        } = self;
    }
}

const NO_HEAD: NameHead = NameHead {
    in_program: None,
    is_inner: false,
};

// What is known of the name with a number.
fn name_head(heads: &[NameHead], name: usize) -> NameHead
    ensures { result ≡ name_head heads.now name }
{
    match heads.get(name) {
        Some(head) => *head,
        None => NO_HEAD,
    }
}

// Whether it is the scope of a state set or of a state.
fn is_inner(namespace: Namespace) -> bool
    ensures { result ≡ is_inner namespace }
{
    matches!(namespace, Namespace::StateSet(_) | Namespace::State(_))
}

// Makes a head for the name with a number.
fn make_head(heads: &mut Vec<NameHead>, name: usize) -> Result<(), OutOfMemory>
    ensures there { OnOk result (name < vec_len heads.new) }
    ensures same { (n : ℕ) → name_head heads.new.items n ≡ name_head heads.old.items n }
{
    while heads.len() <= name {
        heads.push(NO_HEAD)?;
    }
    Ok(())
}

// Adds the number of the first that came with a key, and tells whether one came before, which then
// stays the first.
fn add_first(
    table: &mut NumbersByKey<QualifiedName>,
    key: QualifiedName,
    number: usize,
) -> Result<bool, OutOfMemory>
    ensures seen { IfOk result (λ seen. seen ≡ is_some (lookup (same_key key) table.old)) }
    ensures stays { IfOk result (λ seen. seen ≡ true → table.new ≡ table.old) }
    ensures put { IfOk result (λ seen. seen ≡ false → (q : QualifiedName) →
        lookup (same_key q) table.new ≡ (if same_key key q then Some number
        else lookup (same_key q) table.old)) }
{
    table.add_first(key, number)
}

impl FirstNumbers {
    /// No numbers, with room for those of so many names.
    pub(crate) fn with_room(alloc: Global, room: usize) -> Result<FirstNumbers, OutOfMemory>
        ensures heads { IfOk result (λ first. first.heads.items ≡ []) }
        ensures elsewhere { IfOk result (λ first. first.elsewhere ≡ []) }
        ensures numbers { IfOk result (λ first. first.numbers.items ≡ []) }
    {
        Ok(FirstNumbers {
            heads: Vec::with_capacity(alloc, room)?,
            elsewhere: NumbersByKey::new(alloc),
            numbers: Vec::with_capacity(alloc, room)?,
        })
    }

    /// The number of the first that came in a namespace.
    pub fn number_under(&self, namespace: Namespace, name: usize) -> Option<usize>
        ensures { result ≡ number_under self.now namespace name }
    {
        match namespace {
            Namespace::Program => name_head(&self.heads, name).in_program,
            _ => self.elsewhere.get(&QualifiedName { namespace, name }),
        }
    }

    /// The keys of what came in other namespaces than that of the program.
    pub fn keys_elsewhere(&self) -> Keys<'_, QualifiedName>
        ensures { result ≡ map (λ e. e.0) self.now.elsewhere }
    {
        self.elsewhere.keys()
    }

    /// The number of the first that came in the state set, or else in the program.
    pub(crate) fn nearest_under(&self, enclosing_set: Option<usize>, name: usize) -> Option<usize>
        requires { TellsInner self.now }
        ensures { result ≡ nearest_under self.now enclosing_set name }
    {
        let head = name_head(&self.heads, name);
        if head.is_inner {
            if let Some(set) = enclosing_set {
                let inside = self.number_under(Namespace::StateSet(set), name);
                if inside.is_some() {
                    return inside;
                }
            }
        }
        head.in_program
    }

    /// The number of the first that came in the scope of a state, or else in the state set, or else
    /// in the program.
    pub(crate) fn nearest_to(
        &self,
        item: usize,
        enclosing_set: Option<usize>,
        name: usize,
    ) -> Option<usize>
        requires { TellsInner self.now }
        ensures { result ≡ option_or (number_under self.now (Namespace.State item) name)
            (nearest_under self.now enclosing_set name) }
    {
        if name_head(&self.heads, name).is_inner {
            let own = self.number_under(Namespace::State(item), name);
            if own.is_some() {
                return own;
            }
        }
        self.nearest_under(enclosing_set, name)
    }

    // Adds a number in the program, and tells whether one came before.
    fn add_in_program(&mut self, name: usize, number: usize) -> bool
        requires { name < vec_len self.old.heads }
        ensures seen { result ≡ is_some (number_under self.old Namespace.Program name) }
        ensures stays { result ≡ true → AreSame self.old self.new }
        ensures put { result ≡ false → IsPut self.old self.new
            (record { namespace = Namespace.Program; name = name }) number }
        ensures numbers { self.new.numbers ≡ self.old.numbers }
    {
        let head = &mut self.heads[name];
        if head.in_program.is_some() {
            return true;
        }
        head.in_program = Some(number);
        false
    }

    // Adds a number in another namespace, and tells whether one came before.
    fn add_elsewhere(&mut self, key: QualifiedName, number: usize) -> Result<bool, OutOfMemory>
        requires elsewhere { is_program key.namespace ≡ false }
        requires there { key.name < vec_len self.old.heads }
        ensures seen { IfOk result
            (λ seen. seen ≡ is_some (number_under self.old key.namespace key.name)) }
        ensures stays { IfOk result (λ seen. seen ≡ true → AreSame self.old self.new) }
        ensures put { IfOk result (λ seen. seen ≡ false → IsPut self.old self.new key number) }
        ensures numbers { OnOk result (self.new.numbers ≡ self.old.numbers) }
    {
        let came_before = add_first(&mut self.elsewhere, key, number)?;
        if !came_before && is_inner(key.namespace) {
            self.heads[key.name].is_inner = true;
        }
        Ok(came_before)
    }

    /// Adds the number of the first that came with a key, and tells whether one came before, which
    /// then stays the first.
    pub(crate) fn add(&mut self, key: QualifiedName, number: usize) -> Result<bool, OutOfMemory>
        ensures seen { IfOk result
            (λ seen. seen ≡ is_some (number_under self.old key.namespace key.name)) }
        ensures stays { IfOk result (λ seen. seen ≡ true → AreSame self.old self.new) }
        ensures put { IfOk result (λ seen. seen ≡ false → IsPut self.old self.new key number) }
        ensures numbers { IfOk result (λ seen. self.new.numbers.items ≡ self.old.numbers.items
            ++ (if seen then [] else number ∷ [])) }
    {
        make_head(&mut self.heads, key.name)?;
        let came_before = match key.namespace {
            Namespace::Program => self.add_in_program(key.name, number),
            _ => self.add_elsewhere(key, number)?,
        };
        if !came_before {
            self.numbers.push(number)?;
        }
        Ok(came_before)
    }
}
