//! What a line of the log begins with.

ghost use Rattle.std.specs.Prelude.{◌≡◌};
ghost use Rattle.njh_log.specs.Places.{customer_place, same_place};

use crate::severity::Severity;
use arrayvec::ArrayString;
use njh_ebcdic::Name;
use std::fmt;

/// How many bytes the name of a line has at most.
const NAME: usize = 8;

/// When something happened, how grave it is, and where it happened.
#[derive(Clone, Copy, Drop)]
pub struct Heading {
    /// In milliseconds since the beginning of 1970, in UTC.
    pub milliseconds: i64,
    /// How grave it is.
    pub severity: Severity,
    /// Where it happened.
    pub place: Place,
}

/// Where something happened.
#[derive(Clone, Copy, Drop)]
pub enum Place {
    /// Not with one customer.
    Hub,
    /// With a customer.
    Customer(Name),
    /// On a line of a customer.
    Line(Name, ArrayString<NAME>),
}

impl fmt::Display for Place {
    fn fmt<W: fmt::Write>(&self, f: &mut fmt::Formatter<W>) -> fmt::Result {
        match self {
            Place::Hub => Ok(()),
            Place::Customer(customer) => write!(f, "{customer}: "),
            Place::Line(customer, line) => write!(f, "{customer} {line}: "),
        }
    }
}

impl Place {
    /// Whether this is the same place as another.
    pub(crate) fn is_same(&self, other: &Place) -> bool
        ensures { result ≡ same_place self.now other.now }
    {
        match (self, other) {
            (Place::Hub, Place::Hub) => true,
            (Place::Customer(one), Place::Customer(other)) => *one == *other,
            (Place::Line(one, line), Place::Line(other, second)) => {
                *one == *other && line.as_str() == second.as_str()
            }
            (_, _) => false,
        }
    }

    /// The customer with whom it happened, as a place.
    pub(crate) fn customer(&self) -> Place
        ensures { result ≡ customer_place self.now }
    {
        match self {
            Place::Hub => Place::Hub,
            Place::Customer(customer) => Place::Customer(*customer),
            Place::Line(customer, _) => Place::Customer(*customer),
        }
    }
}

impl Heading {
    /// That of an error which isn't one customer's.
    pub fn error(milliseconds: i64) -> Heading
        ensures { result ≡ record { milliseconds = milliseconds; severity = Severity.Error; place = Place.Hub } }
    {
        Heading {
            milliseconds,
            severity: Severity::Error,
            place: Place::Hub,
        }
    }

    /// That of a warning which isn't one customer's.
    pub fn warning(milliseconds: i64) -> Heading
        ensures { result ≡ record { milliseconds = milliseconds; severity = Severity.Warning; place = Place.Hub } }
    {
        Heading {
            milliseconds,
            severity: Severity::Warning,
            place: Place::Hub,
        }
    }
}
