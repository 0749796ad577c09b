ghost use Rattle.std.specs.Prelude.{◌≡◌, length, IfOk};
ghost use Rattle.py_heap.specs.Numbering.{AreNumbersOf};
ghost use Rattle.py_tree.specs.Locals.{locals_of};

use plain_data::{Shared, Text, TextMap};
use py_tree::{Def, locals_of};
use std::alloc::{AllocError, Global};
use std::marker::Model;

/// A function, which contracts see as its definition. It has the numbers of its locals too, made once. One more owner
/// copies neither.
#[derive(Drop)]
pub struct Function {
    def: Shared<Def>,
    numbers: Shared<TextMap<usize>>,
    slots: usize,
}

impl Model for Function {
    ghost use Rattle.std.specs.Prelude.{◌≡◌, length};
    ghost use Rattle.py_tree.specs.declared.statements.Def.{Def as Definition};
    ghost use Rattle.py_tree.specs.contracts.statements.Def as definition;
    ghost use Rattle.py_tree.specs.Locals.{locals_of};
    ghost use Rattle.py_heap.specs.Numbering.{AreNumbersOf};

    ghost Value = { Definition };

    ghost coded = { definition.the_row.coded };

    ghost view = { λ f. f.def };

    ghost invariant = { λ f. AreNumbersOf (locals_of f.def) f.numbers × (f.slots ≡ length (locals_of f.def)) };
}

impl Function {
    /// The function with that definition. Copies the name of each local once.
    pub fn new(alloc: Global, def: Shared<Def>) -> Result<Function, AllocError>
        ensures { IfOk result (λ f. f ≡ def) }
    {
        let locals = locals_of(alloc, def.get())?;
        let numbers = Shared::new(alloc, numbers_of(alloc, locals.as_slice())?)?;
        let slots = locals.len();
        Ok(Function {
            def,
            numbers,
            slots,
        })
    }

    /// One more owner of the function. Copies no tree and no name.
    pub fn share(&self) -> Result<Function, AllocError>
        ensures { IfOk result (λ f. f ≡ self.now) }
    {
        let def = self.def.share()?;
        let numbers = self.numbers.share()?;
        Ok(Function {
            def,
            numbers,
            slots: self.slots,
        })
    }

    /// The definition.
    pub fn def(&self) -> &Def
        ensures { result.now ≡ self.now }
    {
        self.def.get()
    }

    /// The number of each of its locals, from 0, in the order of their first positions.
    pub fn numbers(&self) -> &Shared<TextMap<usize>>
        ensures { AreNumbersOf (locals_of self.now) result.now }
    {
        &self.numbers
    }

    /// How many locals it has.
    pub fn slots(&self) -> usize
        ensures { result ≡ length (locals_of self.now) }
    {
        self.slots
    }
}

/// The number of each name: its position, from 0.
fn numbers_of(alloc: Global, names: &[Text]) -> Result<TextMap<usize>, AllocError>
    ensures { IfOk result (λ numbers. AreNumbersOf names.now numbers) }
{
    let mut numbers = TextMap::new(alloc);
    for (at, name) in names.iter().enumerate() {
        numbers.bind(name.copy(alloc)?, at)?;
    }
    Ok(numbers)
}
