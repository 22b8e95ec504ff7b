//! The lines of an explanation.
ghost use Rattle.std.specs.Prelude.{◌≡◌, ◌++◌, IfOk, OnOk, string_bytes};
ghost use Rattle.wshown.specs.Shown.{BeginsWith};
ghost use Rattle.wsentences.specs.Explanations.{file_line, sentence_line};

use crate::sentences::Sentence;
use std::alloc::{AllocError, Global};
use wshown::push_text;

/// Adds the line of a sentence.
pub fn push_sentence(text: &mut String, sentence: Sentence) -> Result<(), AllocError>
    ensures { OnOk result (string_bytes text.new ≡ string_bytes text.old ++ sentence_line sentence) }
{
    text.push_str(sentence.label)?;
    text.push_str(": ")?;
    text.push_str(sentence.words)?;
    text.push_str("\n")
}

/// An explanation: the line of a sentence, and what is said below it.
pub fn explained(alloc: Global, sentence: Sentence, below: &str) -> Result<String, AllocError>
    ensures lines { IfOk result (λ text. string_bytes text ≡ sentence_line sentence ++ below.now) }
    ensures label { IfOk result (λ text. BeginsWith sentence.label.now (string_bytes text)) }
{
    let mut text = String::new(alloc);
    push_sentence(&mut text, sentence)?;
    text.push_str(below)?;
    Ok(text)
}

/// Adds the line of a file, and where in it something stands, if that is said.
pub fn push_file(text: &mut String, file: &str, place: &str) -> Result<(), AllocError>
    ensures { OnOk result (string_bytes text.new ≡ string_bytes text.old ++ file_line file.now place.now) }
{
    push_text(text, file)?;
    if place.is_empty() {
        return text.push('\n');
    }
    text.push_str(": ")?;
    text.push_str(place)?;
    text.push('\n')
}
