//! The texts that are made of a bundle: its plan, and the report of a run.
//!
//! The definition finds a line's reply in the visits of its zone; the code walks each CPU's replies, and the first
//! pages of chunks are collected from the log once. It runs nothing: any run of the bundle will do, with its replies.
//!
//! Contract: the text is the plan's, or the report of the run whose record it is given.
#![tactic(auto)]

mod addresses;
mod asks;
mod numbers;
mod pages;
mod planned;
mod replies;
mod rounds;
mod texts;
mod uses;
mod zones;

pub use texts::{plan_text, plan_text_with, text, text_with};
