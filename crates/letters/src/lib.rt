// Letters of the customer's own: which byte is which letter, and written words to letters by it.
//
// alphabet     the record of a customer's letters, and whether some text gives it
// loading      load_letters, the public call that reads such a text
// translation  translate, the public call that translates a written word

#![tactic(auto)]

pub mod alphabet;
pub mod loading;
pub mod translation;
