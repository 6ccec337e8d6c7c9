// What a line of a script asks: its word, and the call that it makes with what follows the word.
pub mod answer;
pub mod line;
pub mod words;
