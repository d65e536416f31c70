// Identifiers as texts.
ghost use Rattle.std.specs.Prelude.{◌≡◌, ◌≤◌, IfOk};
ghost use Rattle.identifiers.specs.Names.{name_of};
ghost use Rattle.identifiers.specs.declared.named.Named.TheVariants as named;

use cite_schema::{ByteText, NoMemory};
use itoa::Buffer;
use std::alloc::Global;

/// The identifier `PREFIX/cN` of a citation.
pub fn mint(alloc: Global, prefix: &[u8], number: u32) -> Result<ByteText, NoMemory>
    requires { 1 ≤ number }
    ensures { IfOk result (λ name. name ≡ name_of prefix.now (named.Subset number)) }
{
    let mut name = Vec::from_slice(alloc, prefix)?;
    name.extend_from_slice(b"/c")?;
    name.extend_from_slice(Buffer::new().format(number).as_bytes())?;
    Ok(ByteText::from_vec(name))
}

/// The identifier `PREFIX/d1` of the data set.
pub fn superset(alloc: Global, prefix: &[u8]) -> Result<ByteText, NoMemory>
    ensures { IfOk result (λ name. name ≡ name_of prefix.now named.Superset) }
{
    let mut name = Vec::from_slice(alloc, prefix)?;
    name.extend_from_slice(b"/d1")?;
    Ok(ByteText::from_vec(name))
}
