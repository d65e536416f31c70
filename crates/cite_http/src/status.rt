// Why a message is refused.

/// Why a message is refused. The first five close the connection.
#[derive(Clone, Copy, Debug, PartialEq, Eq, Drop)]
pub enum Status {
    /// The head is no request head of HTTP/1.0 or HTTP/1.1, or has more than 64 fields.
    BadHead,
    /// The head has more than 16,384 bytes, or more than 66 lines.
    HeadTooLong,
    /// There is a field `Transfer-Encoding`; the body would be coded in a way that is not read here.
    TransferCoding,
    /// There is more than one field `Content-Length`, or its value is no number of 1 to 18 digits.
    BadLength,
    /// The body would have more than 8,388,608 bytes.
    BodyTooLong,
    /// The target begins with no slash, or a count or the curator in it has not its form.
    BadTarget,
    /// No route has the path.
    NoRoute,
    /// The path is served by another method: by GET, or by POST.
    OtherMethod {
        /// Whether the path is served by GET.
        get: bool,
    },
}
