// The texts of the tests: what is sent, and what comes back.

/// A batch of three rows.
pub const BATCH: &[u8] =
    b"POST /batch/1/ann/1 HTTP/1.1\r\nHost: localhost\r\nUser-Agent: curl/8.0\r\nAccept: */*\r\nContent-Length: 33\r\nContent-Type: text/csv\r\n\r\nop,sid,depth\n+,1,5\n+,2,12\n+,3,19\n";

/// The response to it, where it is new.
pub const STORED: &[u8] =
    b"HTTP/1.1 201 Created\r\nContent-Type: application/json\r\nContent-Length: 24\r\n\r\n{\"new\":true,\"version\":2}";

/// The response to it, where the disk fails.
pub const DISK_FAILED: &[u8] =
    b"HTTP/1.1 503 Service Unavailable\r\nContent-Type: text/plain\r\nContent-Length: 11\r\n\r\nDiskFailed\n";

/// What the archive holds is asked for.
pub const STATE: &[u8] = b"GET /state HTTP/1.1\r\nHost: localhost\r\n\r\n";

/// A head whose body is coded, and another message behind it.
pub const CODED: &[u8] =
    b"GET /state HTTP/1.1\r\nTransfer-Encoding: chunked\r\n\r\nGET /state HTTP/1.1\r\n\r\n";

/// The response to that head.
pub const REFUSED: &[u8] =
    b"HTTP/1.1 501 Not Implemented\r\nContent-Type: text/plain\r\nContent-Length: 15\r\nConnection: close\r\n\r\nTransferCoding\n";

/// No head, and a message behind it.
pub const NO_HEAD: &[u8] = b"nonsense\r\n\r\nGET /state HTTP/1.1\r\n\r\n";

/// The response to what is no head.
pub const BAD_HEAD: &[u8] =
    b"HTTP/1.1 400 Bad Request\r\nContent-Type: text/plain\r\nContent-Length: 8\r\nConnection: close\r\n\r\nBadHead\n";

/// A head whose body would have a byte too many.
pub const LARGE: &[u8] = b"POST /cite HTTP/1.1\r\nContent-Length: 8388609\r\n\r\n";

/// The response to that head.
pub const TOO_LONG: &[u8] =
    b"HTTP/1.1 413 Content Too Large\r\nContent-Type: text/plain\r\nContent-Length: 12\r\nConnection: close\r\n\r\nBodyTooLong\n";

/// A session of five messages: a batch, a citation, its page, its data and its metadata. The last one closes.
pub const SESSION: &[u8] =
    b"POST /batch/1/ann/1 HTTP/1.1\r\nHost: localhost\r\nUser-Agent: curl/8.0\r\nAccept: */*\r\nContent-Length: 33\r\nContent-Type: text/csv\r\n\r\nop,sid,depth\n+,1,5\n+,2,12\n+,3,19\nPOST /cite HTTP/1.1\r\nHost: localhost\r\nContent-Length: 158\r\n\r\n{\"meta\":{\"creators\":[\"Rey, A.\"],\"title\":\"Mid depths\"},\"query\":{\"items\":[{\"column\":\"sid\"},{\"column\":\"depth\"}],\"where\":{\"depth\":{\"and\":[{\"ge\":10},{\"lt\":20}]}}}}GET /id/10.5072/c1 HTTP/1.1\r\nHost: localhost\r\n\r\nGET /id/doi:10.5072/C1/data HTTP/1.1\r\nHost: localhost\r\n\r\nGET /id/10.5072/c1/meta HTTP/1.1\r\nConnection: close\r\n\r\n";

/// The responses of the session, in order.
pub const ANSWERS: [&[u8]; 5] = [
    STORED,
    b"HTTP/1.1 201 Created\r\nContent-Type: application/json\r\nContent-Length: 119\r\n\r\n{\"id\":\"10.5072/c1\",\"new\":true,\"text\":\"Rey, A. (2024): Mid depths. Version 2. Lab. Dataset. https://doi.org/10.5072/c1\"}",
    b"HTTP/1.1 200 OK\r\nContent-Type: text/html; charset=utf-8\r\nContent-Length: 876\r\n\r\n<!DOCTYPE html>\n<html lang=\"en\"><head><meta charset=\"utf-8\"><title>Mid depths</title></head><body>\n<h1>Mid depths</h1>\n<p>Rey, A. (2024): Mid depths. Version 2. Lab. Dataset. https://doi.org/10.5072/c1</p>\n<dl>\n<dt>Identifier</dt><dd>10.5072/c1</dd>\n<dt>Superset</dt><dd><a href=\"/id/10.5072/d1\">10.5072/d1</a></dd>\n<dt>Version</dt><dd>2</dd>\n<dt>Data updated</dt><dd>2024-01-01T00:00:00Z</dd>\n<dt>Cited</dt><dd>2024-01-01T00:00:00Z</dd>\n<dt>Description</dt><dd></dd>\n<dt>Result SHA-256</dt><dd>ddbf33cda5c1c1df43c967dfc17675bdabe3eebb14756da25a243500fdd108a3</dd>\n<dt>Query SHA-256</dt><dd>e6a023beb4f47550094d87be36e3a09529c35a68cbbf06146ac796fb17a56985</dd>\n</dl>\n<pre>\nsome\ncolumn 1 [10,20)\nitem column 0 label 736964\nitem column 1 label 6465707468\norder 0 asc\n</pre>\n<p><a href=\"/id/10.5072/c1/data\">data</a> <a href=\"/id/10.5072/c1/meta\">metadata</a></p>\n</body></html>\n",
    b"HTTP/1.1 200 OK\r\nContent-Type: text/csv\r\nContent-Length: 32\r\n\r\n\"sid\",\"depth\"\n\"2\",\"12\"\n\"3\",\"19\"\n",
    b"HTTP/1.1 200 OK\r\nContent-Type: application/json\r\nContent-Length: 526\r\nConnection: close\r\n\r\n{\"creators\":[{\"name\":\"Rey, A.\"}],\"dates\":[{\"date\":\"2024-01-01T00:00:00Z\",\"dateType\":\"Created\"},{\"date\":\"2024-01-01T00:00:00Z\",\"dateType\":\"Updated\"}],\"identifiers\":[{\"identifier\":\"10.5072/c1\",\"identifierType\":\"DOI\"}],\"publicationYear\":2024,\"publisher\":\"Lab\",\"relatedIdentifiers\":[{\"relatedIdentifier\":\"10.5072/d1\",\"relatedIdentifierType\":\"DOI\",\"relationType\":\"IsPartOf\"}],\"schemaVersion\":\"http://datacite.org/schema/kernel-4\",\"titles\":[{\"title\":\"Mid depths\"}],\"types\":{\"resourceType\":\"Dataset\",\"resourceTypeGeneral\":\"Dataset\"}}",
];
