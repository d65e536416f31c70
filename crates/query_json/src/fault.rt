// Why a body is no request.
use cite_schema::NoMemory;

/// Why a body is no request. Each body has one fault: the first in this order, but for want of memory.
#[derive(Clone, Copy, Debug, PartialEq, Eq, Drop)]
pub enum JsonFault {
    /// The body is no UTF-8, or no JSON text, or its arrays and objects nest more than 127 deep, or a number in it is
    /// beyond every 64-bit float.
    NotJson,
    /// A citation request is an object with exactly the members `query` and `meta`.
    NotARequest,
    /// The query is not of its form: 1 as an object with `items` and, where wanted, `where` and `order`; 2 in `where`;
    /// 3 in `items`; 4 in `order`.
    NotAQuery(u8),
    /// The metadata are an object with `creators`, a list of strings, `title`, a string, and, where wanted,
    /// `description`, a string.
    NotAMeta,
    /// The body is no list of migration steps. No citation request has this fault.
    NotSteps,
    /// Memory was wanting.
    NoMemory,
}

impl From<NoMemory> for JsonFault {
    ghost use Rattle.std.specs.Prelude.{◌≡◌};
    ghost use Rattle.query_json.specs.declared.fault.JsonFault.TheVariants as fault;

    ghost from_gives = { λ _ e. e ≡ fault.NoMemory };

    fn from(_: NoMemory) -> JsonFault {
        JsonFault::NoMemory
    }
}
