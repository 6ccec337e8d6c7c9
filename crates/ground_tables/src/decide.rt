// The decisions: for each module one, over the numbers of its state and of the event. What no arm lists falls to the abort case, or for
// a request to refusal 1.
ghost use Rattle.std.specs.Prelude.{◌≡◌, eqb};
ghost use Rattle.link.specs.Names.{no_timer};
ghost use Rattle.link.specs.Tests.{pick};
ghost use Rattle.sides.specs.Tables.{move_of};
ghost use Rattle.ground_tables.specs.Moves.{dc_move, contract_move, em_move, li_end, li_over};
ghost use Rattle.ground_tables.specs.Tables.{ground_tables};

use crate::names::*;
use link::moves::*;

#[tactic(auto, unfolding(crate::specs::Moves::dc_move, crate::specs::Moves::dc_rows))]
fn dc_move(state: u8, kind: u8) -> Move
    ensures { result ≡ dc_move state kind }
{
    match state {
        IDLE => match kind {
            REQUEST => go(DC, DC_PENDING, NO_TIMER, false, true, DC1),
            _ => unlisted(kind),
        },
        DC_PENDING => match kind {
            DC_REPORT_ACK | DC_NEGATIVE => go(DC, IDLE, DC1, true, false, NO_TIMER),
            DC_NONCOMPLIANCE => go(DC, DC_ACTIVE, DC1, true, false, DC2),
            _ => unlisted(kind),
        },
        DC_ACTIVE => match kind {
            DC_REPORT => go(DC, IDLE, DC2, true, false, NO_TIMER),
            _ => unlisted(kind),
        },
        _ => unlisted(kind),
    }
}

// EC and PC: t1 is the timer of a request, tc that of a cancel, w the one that runs in ACTIVE.
#[tactic(auto, unfolding(crate::specs::Moves::contract_move, crate::specs::Moves::contract_rows))]
fn contract_move(who: u8, t1: u8, tc: u8, w: u8, state: u8, kind: u8) -> Move
    ensures { result ≡ contract_move who t1 tc w state kind }
{
    match state {
        IDLE => match kind {
            REQUEST => go(who, START_PENDING, NO_TIMER, false, true, t1),
            _ => unlisted(kind),
        },
        START_PENDING => match kind {
            REPORT_ACK | POSITIVE | NONCOMPLIANCE => go(who, ACTIVE, t1, true, false, w),
            NEGATIVE => go(who, IDLE, t1, true, false, NO_TIMER),
            _ => unlisted(kind),
        },
        PENDING => match kind {
            REPORT_ACK | POSITIVE | NONCOMPLIANCE | NEGATIVE => go(who, ACTIVE, t1, true, false, w),
            REPORT => go(who, PENDING, NO_TIMER, true, false, NO_TIMER),
            _ => unlisted(kind),
        },
        ACTIVE => match kind {
            REQUEST => go(who, PENDING, w, false, true, t1),
            CANCEL_REQUEST => go(who, CANCEL, w, false, true, tc),
            REPORT => go(who, ACTIVE, w, true, false, w),
            _ => unlisted(kind),
        },
        CANCEL => match kind {
            REPORT => go(who, CANCEL, NO_TIMER, true, false, NO_TIMER),
            CANCELLED => go(who, IDLE, tc, true, false, NO_TIMER),
            _ => unlisted(kind),
        },
        _ => unlisted(kind),
    }
}

// EM: p is PC2 where PC is ACTIVE, else none.
#[tactic(auto, unfolding(crate::specs::Moves::em_move, crate::specs::Moves::em_rows))]
fn em_move(p: u8, state: u8, kind: u8) -> Move
    ensures { result ≡ em_move p state kind }
{
    match state {
        IDLE => match kind {
            EM_REPORT => go(EM, EM_ACTIVE, p, true, false, EM1),
            _ => unlisted(kind),
        },
        EM_ACTIVE => match kind {
            MODIFY_REQUEST => go(EM, MODIFY, EM1, false, true, EM2),
            EM_REPORT => go(EM, EM_ACTIVE, EM1, true, false, EM1),
            EM_CANCEL => go(EM, IDLE, EM1, true, true, p),
            _ => unlisted(kind),
        },
        MODIFY => match kind {
            EM_REPORT => go(EM, MODIFY, NO_TIMER, true, false, NO_TIMER),
            EM_REPORT_ACK | EM_POSITIVE => go(EM, EM_ACTIVE, EM2, true, false, EM1),
            EM_CANCEL => go(EM, IDLE, EM2, true, true, p),
            _ => unlisted(kind),
        },
        _ => unlisted(kind),
    }
}

// PC2 where a state is the one wanted, else none.
fn pc2_if(state: u8, wanted: u8) -> u8
    ensures { result ≡ pick (eqb state wanted) 5 no_timer }
{
    if state == wanted { PC2 } else { NO_TIMER }
}

// The decision over the modules' states and the event's number: 16 numbers for each module; data of no module is abort 3.
#[tactic(auto, unfolding(sides::specs::Tables::move_of, crate::specs::Tables::ground_tables, crate::specs::Moves::ground_rows, crate::specs::Moves::dc_move, crate::specs::Moves::contract_move, crate::specs::Moves::em_move))]
pub fn decide(at: [u8; 5], event: u8) -> Move
    ensures { result ≡ move_of ground_tables at event }
{
    match event {
        0..=15 => dc_move(at[0], event),
        16..=31 => contract_move(EC, EC1, EC2, NO_TIMER, at[1], event - 16),
        32..=47 => contract_move(PC, PC1, PC3, pc2_if(at[3], IDLE), at[2], event - 32),
        48..=63 => em_move(pc2_if(at[2], ACTIVE), at[3], event - 48),
        _ => unlisted(event - 64),
    }
}

// LI's own moves: the end request starts LI1, the end confirm stops it.
pub fn li_end() -> Move
    ensures { result ≡ li_end }
{
    go(LI, LI_END, NO_TIMER, false, true, LI1)
}

pub fn li_over() -> Move
    ensures { result ≡ li_over }
{
    go(LI, LI_IDLE, LI1, false, false, NO_TIMER)
}
