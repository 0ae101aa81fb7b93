use crate::no_answer::NoAnswer;
use std::alloc::Global;

// What words of a question stand for. A word that stands for nothing makes the line no question.

pub fn number(word: &str) -> Result<u32, NoAnswer> {
    text::read::number(word).ok_or(NoAnswer::NoQuestion)
}

pub fn numbers(heap: Global, words: &[&str]) -> Result<Vec<u32>, NoAnswer> {
    text::read::numbers(heap, words)?.ok_or(NoAnswer::NoQuestion)
}

pub fn length(word: &str, needed: usize) -> Result<usize, NoAnswer> {
    text::read::length(word, needed).ok_or(NoAnswer::NoQuestion)
}
