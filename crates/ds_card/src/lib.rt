//! The card's port: the words of a cartridge's file that a program asks for while it runs (GBATEK, "DS Cartridge I/O Ports" and "DS
//! Cartridge Protocol"). A command of eight bytes and a start by ROMCTRL make a transfer of a block of words, each of which is ready
//! some ticks after the one before it was taken. Its main contracts are those of `Card::write`, `Card::read` and `Card::event`; what a
//! transfer's starter takes is the transfer's words in order, each once, by `transfer_laws`. Its bytes are those of `Card::pack` and
//! `Card::unpack`, which are one another's inverse by `saved_laws`. It stands behind the ports of both processors.
#![tactic(auto)]

mod cards;
mod orders;
mod ports;
mod serials;

pub use cards::{Card, CardDone, CardRead, NextWord, Transfer, saved_laws};
pub use orders::transfer_laws;
