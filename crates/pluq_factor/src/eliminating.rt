// Who eliminates by rounds: by what pivots leave, by dense eliminations, and by settled rows.
use crew::{Alone, Threaded};
use dense_finish::Finishing;
use echelon_form::Settling;
use schur_rows::Dealing;
use std::thread::Threads;

/// A crew that works out ranks and forms by rounds. This crate implements it for both crews that there are.
pub trait Eliminating: Settling + Dealing + Finishing + Copy {}

impl Eliminating for Alone {}

impl<'a, R: Threads + Sync> Eliminating for Threaded<'a, R> {}
