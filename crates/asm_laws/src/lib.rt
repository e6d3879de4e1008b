//! That the assembler's image of a source is the one that satisfies all its lines at once.
#![tactic(auto)]

mod laws;

pub use laws::{
    assemblies_are_found, codes_are_told, earlier_labels_settle, example_is_assembled,
    faults_tell_lines, first_faults_are_told, images_are_by_address, images_are_told,
    images_are_unique, least_codes_are_told, lines_agree_from_above, printed_words_are_read,
    reading_is_told, statements_fill_their_addresses, symbols_are_labels,
    words_take_their_addresses,
};
