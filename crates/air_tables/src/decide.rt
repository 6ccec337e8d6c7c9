// The decisions: for each module one, over the numbers of its state and of the event. What no arm lists falls to the abort case, or for
// what the user asks to refusal 1.
ghost use Rattle.std.specs.Prelude.{◌≡◌};
ghost use Rattle.link.specs.Names.{EM, IDLE};
ghost use Rattle.link.specs.Moves.{to, stop};
ghost use Rattle.sides.specs.Tables.{move_of};
ghost use Rattle.air_tables.specs.Moves.{dc_move, contract_move, em_move, li_answer, em3_at};
ghost use Rattle.air_tables.specs.Tables.{air_tables};

use crate::names::*;
use link::moves::*;

#[tactic(auto, unfolding(crate::specs::Moves::dc_move, crate::specs::Moves::dc_rows))]
fn dc_move(state: u8, kind: u8) -> Move
    ensures { result ≡ dc_move state kind }
{
    match state {
        IDLE => match kind {
            DC_CONTRACT => go(DC, DC_PENDING, NO_TIMER, true, false, NO_TIMER),
            _ => unlisted(kind),
        },
        DC_PENDING => match kind {
            DC_NEGATIVE | DC_REPORT_ACK => go(DC, IDLE, NO_TIMER, false, true, NO_TIMER),
            DC_NONCOMPLIANCE => go(DC, DC_ACTIVE, NO_TIMER, false, true, NO_TIMER),
            _ => unlisted(kind),
        },
        DC_ACTIVE => match kind {
            DC_REPORT => go(DC, IDLE, NO_TIMER, false, true, NO_TIMER),
            _ => unlisted(kind),
        },
        _ => unlisted(kind),
    }
}

// EC and PC.
#[tactic(auto, unfolding(crate::specs::Moves::contract_move, crate::specs::Moves::contract_rows))]
fn contract_move(who: u8, state: u8, kind: u8) -> Move
    ensures { result ≡ contract_move who state kind }
{
    match state {
        IDLE => match kind {
            CONTRACT => go(who, PENDING, NO_TIMER, true, false, NO_TIMER),
            _ => unlisted(kind),
        },
        PENDING => match kind {
            AGREE | REPORT_ACK => go(who, ACTIVE, NO_TIMER, false, true, NO_TIMER),
            NEGATIVE => go(who, IDLE, NO_TIMER, false, true, NO_TIMER),
            _ => unlisted(kind),
        },
        ACTIVE => match kind {
            REPORT => go(who, ACTIVE, NO_TIMER, false, true, NO_TIMER),
            CONTRACT => go(who, ACTIVE_PENDING, NO_TIMER, true, false, NO_TIMER),
            CANCEL_CONTRACT => go(who, IDLE, NO_TIMER, true, true, NO_TIMER),
            _ => unlisted(kind),
        },
        ACTIVE_PENDING => match kind {
            AGREE | REPORT_ACK => go(who, ACTIVE, NO_TIMER, false, true, NO_TIMER),
            NEGATIVE => go(who, ACTIVE, NO_TIMER, false, true, NO_TIMER),
            _ => unlisted(kind),
        },
        _ => unlisted(kind),
    }
}

#[tactic(auto, unfolding(crate::specs::Moves::em_move, crate::specs::Moves::em_rows))]
fn em_move(state: u8, kind: u8) -> Move
    ensures { result ≡ em_move state kind }
{
    match state {
        IDLE => match kind {
            EM_REPORT => go(EM, EM_ACTIVE, NO_TIMER, false, true, NO_TIMER),
            _ => unlisted(kind),
        },
        EM_ACTIVE => match kind {
            EM_REPORT => go(EM, EM_ACTIVE, NO_TIMER, false, true, NO_TIMER),
            EM_CANCEL => go(EM, CANCEL, NO_TIMER, false, true, EM3),
            EM_MODIFY => go(EM, MODIFY, NO_TIMER, true, false, NO_TIMER),
            _ => unlisted(kind),
        },
        MODIFY => match kind {
            EM_REPORT_ACK | EM_REFUSE => go(EM, EM_ACTIVE, NO_TIMER, false, true, NO_TIMER),
            _ => unlisted(kind),
        },
        CANCEL => match kind {
            EM_ACK => go(EM, IDLE, EM3, false, false, NO_TIMER),
            EM_MODIFY => go(EM, CANCEL, NO_TIMER, false, false, NO_TIMER),
            _ => unlisted(kind),
        },
        _ => unlisted(kind),
    }
}

// The decision over the modules' states and the event's number: 16 numbers for each module; data of no module is abort 3.
#[tactic(auto, unfolding(sides::specs::Tables::move_of, crate::specs::Tables::air_tables, crate::specs::Moves::air_rows, crate::specs::Moves::dc_move, crate::specs::Moves::contract_move, crate::specs::Moves::em_move))]
pub fn decide(at: [u8; 5], event: u8) -> Move
    ensures { result ≡ move_of air_tables at event }
{
    match event {
        0..=15 => dc_move(at[0], event),
        16..=31 => contract_move(EC, at[1], event - 16),
        32..=47 => contract_move(PC, at[2], event - 32),
        48..=63 => em_move(at[3], event - 48),
        _ => unlisted(event - 64),
    }
}

// LI's answer to an end indication; `told` where the user is told.
pub fn li_answer(told: bool) -> Move
    ensures { result ≡ li_answer told }
{
    go(LI, LI_ACTIVE, NO_TIMER, told, true, NO_TIMER)
}

// A module stops operation.
pub fn halt(who: u8) -> Move
    ensures { result ≡ to who IDLE }
{
    go(who, IDLE, NO_TIMER, false, false, NO_TIMER)
}

// EM stops operation at its state, and EM3 where it runs.
pub fn halt_em(state: u8) -> Move
    ensures { result ≡ stop (em3_at state) (to EM IDLE) }
{
    if state == CANCEL {
        return go(EM, IDLE, EM3, false, false, NO_TIMER);
    }
    halt(EM)
}
