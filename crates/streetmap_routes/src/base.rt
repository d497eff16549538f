//! The base of links, with the router of the eight paths.
ghost use Rattle.std.specs.Prelude.{◌≡◌, ◌++◌, ◌↔◌, [], None, codes, IsTrue};
ghost use Rattle.url.specs.Parts.{serialize};
ghost use Rattle.streetmap_routes.specs.BaseUrl.{IsBase, is_web as is_web_of};
ghost use Rattle.streetmap_routes.specs.Routes.{the_rows};

use crate::offers::{Offers, operation_with};
use crate::operations::Operation;
use crate::routes::{Route, make_router};
use matchit::Router;
use std::alloc::{AllocError, Global};
use url::{ParseError, Position, Url};

/// Whether the scheme is that of the web.
fn is_web(url: &Url) -> bool
    ensures { result ≡ is_web_of url.now.scheme }
{
    let scheme = url.scheme();
    scheme == "http" || scheme == "https"
}

/// Whether a URL has no user name and no password.
fn has_no_user(url: &Url) -> bool
    ensures { IsTrue result ↔ ((url.now.username ≡ []) × (url.now.password ≡ [])) }
{
    url.username().is_empty() && url.password().is_none()
}

/// Whether a URL has no query and no fragment.
fn has_no_query(url: &Url) -> bool
    ensures { IsTrue result ↔ ((url.now.query ≡ None) × (url.now.fragment ≡ None)) }
{
    url.query().is_none() && url.fragment().is_none()
}

/// Whether the path is the root.
fn is_at_root(url: &Url) -> bool
    ensures { IsTrue result ↔ (url.now.path ≡ codes "/") }
{
    url.path() == "/"
}

/// Whether a URL is a base.
fn is_base(url: &Url) -> bool
    ensures { IsTrue result ↔ IsBase url.now }
{
    is_web(url) && has_no_user(url) && is_at_root(url) && has_no_query(url)
}

/// The text of a base without its last slash.
fn without_slash(url: &Url) -> &str
    requires { IsBase url.now }
    ensures { result.now ++ codes "/" ≡ serialize url.now }
{
    url.slice(Position::BeforeScheme, Position::BeforePath)
}

/// The base of links: an `http` or `https` URL with the path `/` and no user name, password, query
/// or fragment. It holds the router of the eight paths too.
#[derive(Drop)]
pub struct Base {
    url: Url,
    router: Router<Route>,
    ghost is_base: { IsBase url },
    ghost routes: { router ≡ the_rows },
}

impl Base {
    ghost use Rattle.std.specs.Prelude.{IfOk, IfSome, Ok};
    ghost use Rattle.url.specs.Parts.{Parts};
    ghost use Rattle.streetmap_routes.specs.Operations.{operation_with};
    ghost use Rattle.streetmap_routes.specs.OperationView.{operation_value};
    ghost use Rattle.streetmap_routes.specs.BaseUrl.{ReadsBase};
    ghost use Rattle.streetmap_routes.specs.BaseView.{url_of, root_of};

    /// The base that a text is, as `url` parses it; none exactly if the text is not an `http` or
    /// `https` URL with the path `/` and no user name, password, query or fragment.
    ///
    /// # Errors
    ///
    /// Only that memory runs out, or that the URL reaches 4 GB.
    pub fn new(alloc: Global, text: &str) -> Result<Option<Base>, AllocError>
        ensures ok { IfOk result (λ found. IfSome found (λ base.
            ReadsBase text.now (url_of base))) }
        ensures bad { result ≡ Ok None → (url : Parts) → ReadsBase text.now url → ⊥ }
    {
        let url = match Url::parse(alloc, text) {
            Ok(url) => url,
            Err(ParseError::OutOfMemory | ParseError::Overflow) => return Err(AllocError),
            Err(_) => return Ok(None),
        };
        if !is_base(&url) {
            return Ok(None);
        }
        match make_router(alloc) {
            Ok(router) => Ok(Some(Base { url, router })),
            Err(_) => Err(AllocError),
        }
    }

    /// The text of the base, as `url` writes it.
    pub fn text(&self) -> &str
        ensures { result.now ≡ serialize (url_of self.now) }
    {
        self.url.as_str()
    }

    /// The text of the base without its last slash.
    pub fn root(&self) -> &str
        ensures value { result.now ≡ root_of self.now }
        ensures slash { result.now ++ codes "/" ≡ serialize (url_of self.now) }
    {
        without_slash(&self.url)
    }

    /// What a request wants, by its method, its target and its body (OGC 17-069, section 7), of a
    /// service that offers these paths beside the eight.
    ///
    /// # Errors
    ///
    /// Only that memory runs out.
    pub fn operation(
        &self,
        alloc: Global,
        offers: Offers,
        method: &[u8],
        target: &str,
        body: &[u8],
    ) -> Result<Operation, AllocError>
        ensures { IfOk result (λ operation. operation_value operation
            ≡ operation_with offers method.now target.now body.now) }
    {
        operation_with(alloc, &self.router, offers, method, target, body)
    }
}
