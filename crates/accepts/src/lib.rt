// Yes or no without a run: whether a machine accepts a word, or each word of a list.
//
// word      the public call accepts: one word
// words     the public call accept_words: a list of words, the table tested and prepared once
// prepared  the seams below them: a table made ready once for many words, and the answer to a word over it; the states that the runs of one
//           word reach

#![tactic(auto)]

pub mod prepared;
pub mod word;
pub mod words;
