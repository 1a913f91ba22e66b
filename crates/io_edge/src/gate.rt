// What calls of hosts pass through.

/// What stands for a call of a caller. Contracts see the number of the caller, and that of the call.
pub trait CallToken {
    ghost use Rattle.std.specs.Prelude.{ℕ};

    ghost call_of: { Self → ℕ × ℕ };
}

/// What each call of a host passes through in a run with threads. It may hold a caller up, and
/// changes nothing that a contract speaks of. It gives a ticket for a call before it, and a receipt
/// for the ticket behind it. Where no more is known of a gate than that it is one, a ticket comes
/// from its `before` alone and goes to its `after` alone, and a receipt comes from there alone.
pub trait Gate: Sync {
    /// What a caller has while a call of it is under way.
    type Ticket: CallToken + Send + Sync;

    /// What it has of a call of which the gate was told to its end.
    type Receipt: CallToken + Drop + Send + Sync;

    ghost use Rattle.std.specs.Prelude.{◌≡◌};

    /// Before the call with the number `step`, from 1, of the caller with the number `actor`.
    fn before(&self, actor: u32, step: u64) -> Self::Ticket
        ensures { Self.Ticket.call_of result ≡ (actor, step) };

    /// After that call.
    fn after(&self, ticket: Self::Ticket) -> Self::Receipt
        ensures { Self.Receipt.call_of result ≡ Self.Ticket.call_of ticket };
}

/// What says which call it stands for, and no more.
#[derive(Drop)]
pub struct Call {
    pub actor: u32,
    pub step: u64,
}

impl CallToken for Call {
    ghost call_of = { λ call. (call.actor, call.step) };
}

/// The gate that lets each caller pass at once.
#[derive(Clone, Copy)]
pub struct FreeGate;

impl Gate for FreeGate {
    type Ticket = Call;

    type Receipt = Call;

    fn before(&self, actor: u32, step: u64) -> Call {
        Call { actor, step }
    }

    fn after(&self, ticket: Call) -> Call {
        ticket
    }
}

impl<G: Gate> Gate for &G {
    type Ticket = G::Ticket;

    type Receipt = G::Receipt;

    fn before(&self, actor: u32, step: u64) -> G::Ticket {
        (**self).before(actor, step)
    }

    fn after(&self, ticket: G::Ticket) -> G::Receipt {
        (**self).after(ticket)
    }
}
