//! By which methods of HTTP a resource is asked.

ghost use Rattle.std.specs.Prelude.{◌≡◌};
ghost use Rattle.njh_request.specs.Refusals.{allow_of};
ghost use Rattle.njh_request.specs.Requests.{is_by};

use std::fmt;

/// By which methods a resource is asked.
#[derive(Clone, Copy, Debug, PartialEq, Eq)]
pub enum Methods {
    /// By GET, and by HEAD, which is answered without the body.
    Get,
    /// By POST.
    Post,
    /// By PUT.
    Put,
}

impl Methods {
    /// Whether a method is one of these.
    pub(crate) fn are(self, method: &str) -> bool
        ensures { result ≡ is_by self method.now }
    {
        match self {
            Methods::Get => method == "GET" || method == "HEAD",
            Methods::Post => method == "POST",
            Methods::Put => method == "PUT",
        }
    }

    /// As the field Allow of an answer has them.
    pub fn allow(self) -> &'static str
        ensures { result.now ≡ allow_of self }
    {
        match self {
            Methods::Get => "GET, HEAD",
            Methods::Post => "POST",
            Methods::Put => "PUT",
        }
    }
}

impl fmt::Display for Methods {
    ghost use Rattle.std.specs.Prelude.{Some};
    ghost use Rattle.njh_request.specs.Refusals.{allow_of};

    ghost output = { λ methods. Some (allow_of methods) };

    fn fmt<W: fmt::Write>(&self, f: &mut fmt::Formatter<W>) -> fmt::Result {
        f.write_str(self.allow())
    }
}
