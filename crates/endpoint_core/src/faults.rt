// Why a target is refused, and how its handshake is closed.
ghost use Rattle.std.specs.Prelude.{◌≡◌, option_map};
ghost use Rattle.endpoint_core.specs.Faults.{code_of, close_code, fault_by, refusal, wrong_by};

use crate::fields::Field;
use position_core::Fault;
use std::alloc::AllocError;

/// Whom a path is for.
#[derive(Clone, Copy, Debug, PartialEq, Eq)]
pub enum Role {
    /// No endpoint's.
    Unknown,
    Producer,
    Consumer,
    Admin,
}

/// Why a target is no endpoint.
#[derive(Clone, Copy, Debug, PartialEq, Eq)]
pub enum Cause {
    /// No endpoint has the path.
    UnknownPath,
    /// A name in the path is none.
    BadName,
    /// A part of the query is not UTF-8, this parameter is beyond its values, or a dead-letter topic has no name.
    BadParameter(Field),
    /// The producer would send encrypted messages, which this broker does not keep keys for.
    Encryption,
    /// A growth was refused. It says nothing of the target.
    NoMemory,
}

impl From<AllocError> for Cause {
    ghost use Rattle.endpoint_core.specs.declared.faults.Cause.TheVariants.{NoMemory};

    ghost from_gives = { λ _ cause. cause ≡ NoMemory };

    fn from(_: AllocError) -> Cause {
        Cause::NoMemory
    }
}

/// Why the target of a handshake was refused.
#[derive(Clone, Copy, Debug, PartialEq, Eq)]
pub struct RouteFault {
    /// Whom the path is for; `Unknown` for a path of no endpoint.
    pub role: Role,
    pub cause: Cause,
}

fn code_of(role: Role) -> u16
    ensures { result ≡ code_of role }
{
    match role {
        Role::Unknown | Role::Admin => 4008,
        Role::Producer => 4001,
        Role::Consumer => 4002,
    }
}

impl RouteFault {
    /// A path of no endpoint is nobody's.
    pub fn of(role: Role, cause: Cause) -> Self
        ensures { result ≡ refusal role cause }
    {
        let role = match cause {
            Cause::UnknownPath => Role::Unknown,
            Cause::BadName | Cause::BadParameter(_) | Cause::Encryption | Cause::NoMemory => role,
        };
        RouteFault { role, cause }
    }

    /// The code that the WebSocket is closed with (the private range of RFC 6455, section 7.4.2).
    pub fn close_code(self) -> u16
        ensures { result ≡ close_code self }
    {
        match self.cause {
            Cause::UnknownPath | Cause::NoMemory => 4008,
            Cause::BadName | Cause::BadParameter(_) | Cause::Encryption => code_of(self.role),
        }
    }

    /// The refusal that is the reason: F20, or F1 for want of memory.
    pub fn fault(self) -> Fault
        ensures { result ≡ fault_by self.cause }
    {
        match self.cause {
            Cause::NoMemory => Fault::NoMemory,
            Cause::UnknownPath | Cause::BadName | Cause::BadParameter(_) | Cause::Encryption =>
                Fault::BadRoute,
        }
    }

    /// What of the target is wrong: its path, a name in that, or a parameter. Nothing, where memory was wanted.
    pub fn wrong(self) -> Option<&'static str>
        ensures { option_map (λ word. word.now) result ≡ wrong_by self.cause }
    {
        match self.cause {
            Cause::UnknownPath => Some("path"),
            Cause::BadName => Some("name"),
            Cause::BadParameter(field) => Some(field.name()),
            Cause::Encryption => Some("encryptionKeys"),
            Cause::NoMemory => None,
        }
    }
}
