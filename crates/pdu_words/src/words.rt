// Words by their numbers: 01's word where it has one, else 002's, and 003's where 002 has none.
ghost use Rattle.text.specs.Page.{page, Writes};
ghost use Rattle.text.specs.Words.{word_at};
ghost use Rattle.pdu_words.specs.Names.{vocabulary, list_at, refusal_words};

use crate::page::Page;
use host_numbers::numbers::number;
use text::words::put_word;

// Word n of `vocabulary`, which says what they are; nothing past the last.
pub(crate) fn put_name(out: &mut Page, at: usize, n: usize) -> usize
    ensures { Writes (page out.old at) (word_at vocabulary n) (page out.new result) }
{
    put_word(
        out,
        at,
        b"event contractperiodic contractdemand contractcancel event contractcancel periodic contract\
        modify emergency contractcancel all contractsend forward contractcancel emergency ack\
        ADS service unavailablecannot meet reporting ratemaximum capacity exceededundefined reason\
        lateral deviation changevertical rate changelevel thresholdwaypoint changeair speed changeground speed change\
        heading changeextended projected profile changefigure of merit changetrack angle changelevel changebaseline\
        aircraft addressprojected profileground vectorair vectorweathershort-term intentextended projected profile\
        reporting rate\
        complete lossunder 30 nmunder 15 nmunder 8 nmunder 4 nmunder 1 nmunder 0.25 nmunder 0.05 nm\
        communications service failureunrecoverable system errorinvalid PDUsequence errortimer expiry\
        cannot establish contactundefined errordialogue end not accepted\
        NS\
        EW\
        noyes\
        secondminute\
        air: ground: ,  :  ()-:s every cancel emergencydemand reportemergency reportevent report: negative ack to \
        , used by noncompliance with  not metperiodic reportpositive ack to provider abort , positive ack, level  ft\
        , accuracy , multiple units , acas , aircraft \
        , track , ground speed  kt, vertical rate  ft/min, heading , mach , ias \
        , wind  at , wind speed , temperature  C, turbulence  nm\
        , level range, ceiling , floor  degrees, waypoints ",
        &[
            0, 0, 14, 31, 46, 67, 91, 116, 136, 156, 176, 199, 225, 250, 266, 290, 310, 325, 340,
            356, 375, 389, 422, 444, 462, 474, 482, 498, 515, 528, 538, 545, 562, 588, 602, 615,
            626, 637, 647, 657, 667, 680, 693, 723, 749, 760, 774, 786, 810, 825, 850, 851, 852,
            853, 854, 856, 859, 865, 871, 876, 884, 886, 887, 889, 891, 892, 893, 894, 895, 902,
            918, 931, 947, 961, 977, 987, 1006, 1014, 1029, 1045, 1060, 1074, 1082, 1085, 1096,
            1113, 1120, 1131, 1139, 1154, 1157, 1173, 1180, 1190, 1197, 1203, 1210, 1214, 1227,
            1241, 1243, 1256, 1259, 1282, 1290, 1298, 1310,
        ],
        n,
    )
}

// Where each list of words begins among them; it ends where the next one begins.
const BEGINS: [u32; 12] = [0, 1, 10, 14, 26, 34, 42, 50, 52, 54, 56, 58];

// Word n of a list; nothing past its last.
pub(crate) fn put_listed(out: &mut Page, at: usize, list: u8, n: u32) -> usize
    ensures { Writes (page out.old at) (word_at (list_at list) n) (page out.new result) }
{
    let from = number(&BEGINS, list as usize);
    let end = number(&BEGINS, list as usize + 1);
    let k = from as usize + n as usize;
    if k < end as usize {
        return put_name(out, at, k);
    }
    at
}

// Why a reading was refused (01, "Refusal numbers", which start at 7; L6).
pub(crate) fn put_refusal(out: &mut Page, at: usize, n: u8) -> usize
    ensures { Writes (page out.old at) (word_at refusal_words n) (page out.new result) }
{
    put_word(
        out,
        at,
        b" (input ends inside a field) \
        (sent value above its range or index unused) \
        (extension bit set) \
        (presence bit of an element not carried) \
        (default interval sent) \
        (list over 16) \
        (filling not zero) \
        (octets after the PDU) \
        (event contract with no element) \
        (input over 128 octets) \
        (line not readable) \
        (check wrong) \
        (block number out of turn) \
        (record not readable)",
        &[
            0, 0, 0, 0, 0, 0, 0, 0, 28, 73, 93, 134, 158, 173, 192, 215, 248, 272, 292, 306, 333,
            355,
        ],
        n as usize,
    )
}
