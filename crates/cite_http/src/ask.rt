// What a message asks for.
ghost use Rattle.std.specs.Prelude.{◌≡◌, ◌∷◌, ◌++◌, IfOk};
ghost use Rattle.cite_http.specs.Asks.{asked};
ghost use Rattle.cite_http.specs.Plans.{ask_of, text_of};
ghost use Rattle.cite_http.specs.RouterRows.{route_rows};

use crate::plan::{Name, Plan, make_plan};
use crate::route::Route;
use crate::status::Status;
use cite_schema::{BatchAsk, ByteText, List, NoMemory};
use matchit::Router;
use std::alloc::Global;

/// What a message asks for. A name is the text of an identifier as it stands in the target; whether it names
/// something is not tested here.
#[derive(Debug, Drop)]
pub enum Ask {
    /// What the archive holds.
    State,
    /// The landing page of a name.
    Page(ByteText),
    /// The result bytes of a name.
    Bytes(ByteText),
    /// The metadata of a name.
    Metadata(ByteText),
    /// A batch, as it came.
    Batch(BatchAsk),
    /// A citation request, by its body.
    Cite(ByteText),
    /// A migration of a schema, by its body.
    Migrate { schema: u32, body: ByteText },
    /// Nothing: the message is refused.
    Bad(Status),
}

fn copy_name(alloc: Global, name: Name) -> Result<ByteText, NoMemory>
    ensures { IfOk result (λ text. text ≡ text_of name.entry) }
{
    let mut text = Vec::from_slice(alloc, name.prefix)?;
    text.push(b'/')?;
    text.extend_from_slice(name.suffix)?;
    Ok(List::from_vec(text))
}

// The plan with its texts and the body copied.
fn fill(alloc: Global, plan: Plan, body: &[u8]) -> Result<Ask, NoMemory>
    ensures { IfOk result (λ ask. ask ≡ ask_of plan.entry body.now) }
{
    match plan {
        Plan::State => Ok(Ask::State),
        Plan::Page(name) => Ok(Ask::Page(copy_name(alloc, name)?)),
        Plan::Bytes(name) => Ok(Ask::Bytes(copy_name(alloc, name)?)),
        Plan::Metadata(name) => Ok(Ask::Metadata(copy_name(alloc, name)?)),
        Plan::Batch {
            schema,
            curator,
            number,
        } => {
            let curator = List::from_slice(alloc, curator)?;
            let body = List::from_slice(alloc, body)?;
            Ok(Ask::Batch(BatchAsk {
                schema,
                curator,
                number,
                body,
            }))
        }
        Plan::Cite => Ok(Ask::Cite(List::from_slice(alloc, body)?)),
        Plan::Migrate(schema) => {
            let body = List::from_slice(alloc, body)?;
            Ok(Ask::Migrate { schema, body })
        }
        Plan::Bad(status) => Ok(Ask::Bad(status)),
    }
}

/// What a message asks for, with the bytes that it hands on copied. What to copy is decided before memory is taken.
pub fn read_ask(
    alloc: Global,
    router: &Router<Route>,
    method: &[u8],
    target: &str,
    body: &[u8],
) -> Result<Ask, NoMemory>
    requires { router.now ≡ route_rows }
    ensures { IfOk result (λ ask. ask ≡ asked method.now target.now body.now) }
{
    fill(alloc, make_plan(router, method, target), body)
}
