// Why a call refuses, each with the words of 01 ("Refusal numbers") or of the request that brought it, and its number. 0 is no refusal's.
#![tactic(auto)]

ghost use Rattle.std.specs.Prelude.{◌≡◌};
ghost use Rattle.refusals.specs.Refusals.{number, Found};

#[derive(Clone, Copy, PartialEq, Eq, Debug)]
pub enum Refusal {
    // request not permitted
    NotPermitted = 1,
    // cannot occur
    CannotOccur = 2,
    // setting not 1..86,400
    BadSetting = 3,
    // elapse over 86,400
    ElapseOver = 4,
    // field to write out of range
    OutOfRange = 5,
    // output shorter than the PDU
    NoRoom = 6,
    // input ends inside a field
    CutShort = 7,
    // sent value above its range or index unused
    AboveRange = 8,
    // extension bit set
    ExtensionSet = 9,
    // presence bit of an element not carried
    NotCarried = 10,
    // 11, a default interval sent, is retired, and its number is not used again (L5)
    // list over 16
    ListOver = 12,
    // filling not zero
    Filling = 13,
    // octets after the PDU
    OctetsAfter = 14,
    // event contract with no element
    NoElement = 15,
    // input over 128 octets
    InputOver = 16,
    // script line not readable
    ScriptLine = 17,
    // check wrong (L6)
    CheckWrong = 18,
    // block number out of turn (L6)
    OutOfTurn = 19,
    // record not readable (L6)
    NotReadable = 20,
    // link record not good
    BadRecord = 29,
}

impl Refusal {
    // The number that C and the logs show. No other refusal has it.
    pub fn number(self) -> u8
        ensures is { result ≡ number self }
        ensures alone { (r : Refusal) → number r ≡ result → r ≡ self }
    {
        self as u8
    }

    // The refusal of a number, where there is one.
    pub fn of(n: u8) -> Option<Self>
        ensures { Found n result }
    {
        match n {
            NOT_PERMITTED => Some(Self::NotPermitted),
            CANNOT_OCCUR => Some(Self::CannotOccur),
            BAD_SETTING => Some(Self::BadSetting),
            ELAPSE_OVER => Some(Self::ElapseOver),
            OUT_OF_RANGE => Some(Self::OutOfRange),
            NO_ROOM => Some(Self::NoRoom),
            CUT_SHORT => Some(Self::CutShort),
            ABOVE_RANGE => Some(Self::AboveRange),
            EXTENSION_SET => Some(Self::ExtensionSet),
            NOT_CARRIED => Some(Self::NotCarried),
            LIST_OVER => Some(Self::ListOver),
            FILLING => Some(Self::Filling),
            OCTETS_AFTER => Some(Self::OctetsAfter),
            NO_ELEMENT => Some(Self::NoElement),
            INPUT_OVER => Some(Self::InputOver),
            SCRIPT_LINE => Some(Self::ScriptLine),
            CHECK_WRONG => Some(Self::CheckWrong),
            OUT_OF_TURN => Some(Self::OutOfTurn),
            NOT_READABLE => Some(Self::NotReadable),
            BAD_RECORD => Some(Self::BadRecord),
            _ => None,
        }
    }
}

// The numbers, for `Refusal::of` and for what keeps a number.
pub const NOT_PERMITTED: u8 = 1;

pub const CANNOT_OCCUR: u8 = 2;

pub const BAD_SETTING: u8 = 3;

pub const ELAPSE_OVER: u8 = 4;

pub const OUT_OF_RANGE: u8 = 5;

pub const NO_ROOM: u8 = 6;

pub const CUT_SHORT: u8 = 7;

pub const ABOVE_RANGE: u8 = 8;

pub const EXTENSION_SET: u8 = 9;

pub const NOT_CARRIED: u8 = 10;

pub const LIST_OVER: u8 = 12;

pub const FILLING: u8 = 13;

pub const OCTETS_AFTER: u8 = 14;

pub const NO_ELEMENT: u8 = 15;

pub const INPUT_OVER: u8 = 16;

pub const SCRIPT_LINE: u8 = 17;

pub const CHECK_WRONG: u8 = 18;

pub const OUT_OF_TURN: u8 = 19;

pub const NOT_READABLE: u8 = 20;

pub const BAD_RECORD: u8 = 29;
