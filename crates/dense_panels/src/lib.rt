//! Panels of pivots: what is left of dense rows when a panel's pivots are taken out of them, and the pieces of rows that workers take for it.
#![tactic(auto)]

mod panel;
mod panel_with_units;
mod piece_taker;
mod pieces;
mod reducing;
mod share;
mod shared_pieces;

pub use panel::{Panel, zeros_before};
pub use panel_with_units::PanelWithUnits;
pub use piece_taker::PieceTaker;
pub use pieces::{Piece, put_pieces};
pub use reducing::Reducing;
pub use share::{Share, Shares, gathered};
pub use shared_pieces::{Known, PieceQueue, SameRows, queue_of};
