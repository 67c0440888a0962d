//! For each variable the constraints whose scope it is in.
ghost use Rattle.std.specs.Prelude.{◌≡◌, ◌<◌, ◌^◌, [], ◌∷◌, ◌++◌, length, IfOk, OnOk, OnErr, All};
ghost use Rattle.constraint_queue.specs.Waiting.{AreReaders, HaveJoined, AreEmpty};

use listed::Listed;
use set_meaning::{ConId, VarId};
use std::alloc::{AllocError, Global};
use std::marker::Model;

/// A list of constraints that grows, seen as that list.
#[derive(Drop)]
pub(crate) struct Readers {
    list: Vec<ConId>,
}

impl Model for Readers {
    ghost use Rattle.std.specs.Prelude.{List};
    ghost use Rattle.set_meaning.specs.declared.problems.ConId.{ConId};

    ghost Value = { List ConId };

    ghost view = { λ r. r.list.items };
}

impl Readers {
    fn new(alloc: Global) -> Readers
        ensures { result ≡ [] }
    {
        Readers {
            list: Vec::new(alloc),
        }
    }

    fn push(&mut self, c: ConId) -> Result<(), AllocError>
        ensures more { OnOk result (self.new ≡ self.old ++ c ∷ []) }
        ensures same { OnErr result (self.new ≡ self.old) }
    {
        self.list.push(c)?;
        Ok(())
    }

    pub(crate) fn list(&self) -> &[ConId]
        ensures { result.now ≡ self.now }
    {
        self.list.as_slice()
    }
}

/// For each of so many variables the constraints whose scope it is in, of these scopes. An `Err` is want of memory; what it takes is linear
/// in the number of variables and the length of all scopes.
pub(crate) fn readers_of(
    alloc: Global,
    variables: usize,
    scopes: &[Listed<VarId>],
) -> Result<Vec<Readers>, AllocError>
    requires few { length scopes.now < 2 ^ 32 }
    requires known { All (All (λ v. v.0 < variables)) scopes.now }
    ensures { IfOk result (λ readers. AreReaders scopes.now readers.items) }
{
    let mut readers = no_readers(alloc, variables)?;
    for (c, scope) in scopes.iter().enumerate() {
        join_each(&mut readers, ConId(c as u32), scope.items())?;
    }
    Ok(readers)
}

/// So many lists, all empty.
fn no_readers(alloc: Global, variables: usize) -> Result<Vec<Readers>, AllocError>
    ensures long { IfOk result (λ readers. length readers.items ≡ variables) }
    ensures empty { IfOk result (λ readers. AreEmpty readers.items) }
{
    let mut readers = Vec::new(alloc);
    for n in 0..variables {
        let _ = n;
        readers.push(Readers::new(alloc))?;
    }
    Ok(readers)
}

/// Puts the constraint into the lists of these variables.
fn join_each(readers: &mut Vec<Readers>, c: ConId, scope: &[VarId]) -> Result<(), AllocError>
    requires { All (λ v. v.0 < length readers.old.items) scope.now }
    ensures long { OnOk result (length readers.new.items ≡ length readers.old.items) }
    ensures joined { OnOk result (HaveJoined c scope.now readers.old.items readers.new.items) }
{
    for v in scope {
        let list = &mut readers[v.0 as usize];
        list.push(c)?;
    }
    Ok(())
}
