// The citation text.
ghost use Rattle.std.specs.Prelude.{◌≡◌, ◌≤◌, ◌++◌, IfOk, OnOk};
ghost use Rattle.datacite_meta.specs.Stamps.{IsStamp};
ghost use Rattle.datacite_meta.specs.Metadata.{citation_text, joined};

use crate::stamp::year_of;
use cite_schema::{ByteText, Dataset, Issue, NoMemory};
use identifiers::mint;
use itoa::Buffer;
use std::alloc::Global;

/// The line by which a reader cites (RDA R10), as
/// `Rey, A. (2024): Mid depths. Version 2. Lab. Dataset. https://doi.org/10.5072/c1`: the creators, the year of the citation,
/// its title, the version that it cites, the publisher, and the identifier with its resolver. Texts stand in it as they
/// are. The cost is its length.
pub fn citation_text(alloc: Global, dataset: &Dataset, issue: &Issue) -> Result<ByteText, NoMemory>
    requires number { 1 ≤ issue.now.number }
    requires cited { IsStamp issue.now.cited }
    ensures { IfOk result (λ text. text ≡ citation_text dataset.now issue.now) }
{
    let id = mint(alloc, dataset.prefix.as_slice(), issue.number)?;
    let mut text = Vec::new(alloc);
    put_creators(&mut text, issue.meta.creators.as_slice())?;
    text.extend_from_slice(b" (")?;
    text.extend_from_slice(Buffer::new().format(year_of(issue.cited)).as_bytes())?;
    text.extend_from_slice(b"): ")?;
    text.extend_from_slice(issue.meta.title.as_slice())?;
    text.extend_from_slice(b". Version ")?;
    text.extend_from_slice(Buffer::new().format(issue.version).as_bytes())?;
    text.extend_from_slice(b". ")?;
    text.extend_from_slice(dataset.publisher.as_slice())?;
    text.extend_from_slice(b". Dataset. https://doi.org/")?;
    text.extend_from_slice(id.as_slice())?;
    Ok(ByteText::from_vec(text))
}

// Puts the creators behind a text, with a semicolon and a space between.
fn put_creators(text: &mut Vec<u8>, names: &[ByteText]) -> Result<(), NoMemory>
    ensures { OnOk result (text.new.items ≡ text.old.items ++ joined names.now) }
{
    let [first, others @ ..] = names else {
        return Ok(());
    };
    text.extend_from_slice(first.as_slice())?;
    put_further(text, others)
}

ghost use Rattle.std.specs.Prelude.{codes};
ghost use Rattle.std.specs.List.{flat_map};

// Puts further creators behind a text, each behind a semicolon and a space.
fn put_further(text: &mut Vec<u8>, names: &[ByteText]) -> Result<(), NoMemory>
    ensures { OnOk result (text.new.items ≡ text.old.items ++ flat_map (λ name. codes "; " ++ name) names.now) }
{
    for name in names {
        text.extend_from_slice(b"; ")?;
        text.extend_from_slice(name.as_slice())?;
    }
    Ok(())
}
