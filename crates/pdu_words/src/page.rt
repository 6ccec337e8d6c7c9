// What lines are written on. At one size for all, no function has to keep its length; twice a full page is room for any answer.
pub type Page = [u8; 131072];
