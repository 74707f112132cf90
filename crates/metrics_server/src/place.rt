//! What a path names, and which methods read what stands there.

ghost use Rattle.std.specs.Prelude.{◌≡◌, ◌↔◌, true};
ghost use Rattle.metrics_server.specs.Answer.{IsPlaceOf, IsReading};

use http::Method;

/// What a path names.
#[derive(Clone, Copy, Debug, PartialEq, Eq, Drop)]
pub(crate) enum Place {
    /// `/metrics`: the text of the figures.
    Metrics,
    /// `/healthz`: that all is well.
    Health,
    /// Nothing.
    Elsewhere,
}

pub(crate) fn place_of(path: &str) -> Place
    ensures { IsPlaceOf path.now result }
{
    let path = path.as_bytes();
    if path == b"/metrics".as_slice() {
        Place::Metrics
    } else if path == b"/healthz".as_slice() {
        Place::Health
    } else {
        Place::Elsewhere
    }
}

/// Whether the method reads what stands at a path.
pub(crate) fn is_reading(method: &Method) -> bool
    ensures { result ≡ true ↔ IsReading method.now }
{
    let method = method.as_str().as_bytes();
    method == b"GET".as_slice() || method == b"HEAD".as_slice()
}
