// What begin calls asked for, kept in order.
ghost use Rattle.std.specs.Prelude.{◌≡◌, [], ◌∷◌, ◌++◌, OnOk, OnErr};
ghost use Rattle.desk.specs.Requests.{requests_of};

use crate::Asked;
use std::alloc::{AllocError, Global};

#[derive(Drop)]
pub(crate) struct Request {
    pub what: Asked,
    pub name: String,
}

pub(crate) fn ask(
    alloc: Global,
    asked: &mut Vec<Request>,
    what: Asked,
    name: &str,
) -> Result<(), AllocError>
    ensures ok { OnOk result (requests_of asked.new.items ≡ requests_of asked.old.items ++ (what, name.now) ∷ []) }
    ensures err { OnErr result (asked.new.items ≡ asked.old.items) }
{
    let name = String::from_str(alloc, name)?;
    asked.push(Request { what, name })?;
    Ok(())
}
