// The routes.
ghost use Rattle.std.specs.Prelude.{◌≡◌};
ghost use Rattle.cite_http.specs.Routes.{is_read as spec_is_read};

/// Where a path leads.
#[derive(Clone, Copy, Debug, PartialEq, Eq, Drop)]
pub enum Route {
    /// `/state`
    State,
    /// `/id/{prefix}/{suffix}`
    Page,
    /// `/id/{prefix}/{suffix}/data`
    Bytes,
    /// `/id/{prefix}/{suffix}/meta`
    Metadata,
    /// `/batch/{schema}/{curator}/{number}`
    Batch,
    /// `/cite`
    Cite,
    /// `/migrate/{schema}`
    Migrate,
}

impl Route {
    /// Whether the route is served by GET; the others are served by POST.
    pub fn is_read(self) -> bool
        ensures { result ≡ spec_is_read self }
    {
        match self {
            Route::State | Route::Page | Route::Bytes | Route::Metadata => true,
            Route::Batch | Route::Cite | Route::Migrate => false,
        }
    }
}
