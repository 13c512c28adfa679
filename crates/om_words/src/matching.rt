// Which words fit which forms.
ghost use Rattle.std.specs.Prelude.{◌≡◌, ◌≤◌, true, length, find, IfSome};
ghost use Rattle.om_words.specs.Sentences.{slots_of, is_name as named, takes as may_take, fits as may_fit, fitting, is_whole as whole, form_of as form_by, most_fitting as most_of, wrong_place as wrong, texts};

use crate::form::{FORMS, Form, Slot, goes_on, slots, text};
use crate::numeral::number;

// Whether a word is not empty and no option.
fn is_name(word: &str) -> bool
    ensures { result ≡ named word.now }
{
    match word.as_bytes().first() {
        None => false,
        Some(c) => *c != b'-',
    }
}

fn takes(slot: Slot, word: &str) -> bool
    ensures { result ≡ may_take slot word.now }
{
    match slot {
        Slot::Says(keyword) => word == text(keyword),
        Slot::Name => is_name(word),
        Slot::Number => number(word).is_some(),
    }
}

// Whether a word may stand at a place of a form, counted from 0.
fn fits(form: Form, place: usize, word: &str) -> bool
    ensures { result ≡ may_fit form place word.now }
{
    match slots(form).get(place) {
        Some(slot) => takes(*slot, word),
        None => goes_on(form) && is_name(word),
    }
}

// How many words, from the first on, fit a form.
fn count_fitting(form: Form, words: &[String]) -> usize
    ensures gives { result ≡ fitting form 0 (texts words.now) }
    ensures most { result ≤ length words.now }
{
    for (place, word) in words.iter().enumerate() {
        if !fits(form, place, word.as_str()) {
            return place;
        }
    }
    words.len()
}

// Whether the words are a sentence of a form.
fn is_whole(form: Form, words: &[String]) -> bool
    ensures gives { result ≡ whole form (texts words.now) }
    ensures length { result ≡ true → length (slots_of form) ≤ length words.now }
{
    count_fitting(form, words) == words.len() && slots(form).len() <= words.len()
}

// The first of some forms of which the words are a sentence.
fn first_whole(forms: &[Form], words: &[String]) -> Option<Form>
    ensures gives { result ≡ find (λ form. whole form (texts words.now)) forms.now }
    ensures length { IfSome result (λ form. length (slots_of form) ≤ length words.now) }
{
    for form in forms {
        if is_whole(*form, words) {
            return Some(*form);
        }
    }
    None
}

// The most words, from the first on, that fit one of some forms.
fn most_fitting(forms: &[Form], words: &[String]) -> usize
    ensures gives { result ≡ most_of forms.now (texts words.now) }
    ensures most { result ≤ length words.now }
{
    let mut most = 0;
    for form in forms {
        most = most.max(count_fitting(*form, words));
    }
    most
}

/// The form of which the words are a sentence.
pub(crate) fn form_of(words: &[String]) -> Option<Form>
    ensures gives { result ≡ form_by (texts words.now) }
    ensures length { IfSome result (λ form. length (slots_of form) ≤ length words.now) }
{
    first_whole(&FORMS, words)
}

/// The place, from 1, of the first word with which no sentence goes on, or the one behind the words.
pub(crate) fn wrong_place(words: &[String]) -> u64
    ensures { result ≡ wrong (texts words.now) }
{
    most_fitting(&FORMS, words) as u64 + 1
}
