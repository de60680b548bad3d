//! Makes manual pages and completion scripts from the definitions of the commands.
//!
//! Only `help man ..`, `help completions ..` and `help help` are answered here. The exit status says
//! whether the page or script exists and was written.
//!
//! Names, usage, help and options come from the tables of `command_line`, which `--help` prints
//! too. So a page never misses an option. The texts are tested: the pages by `mandoc` and `man`, the
//! scripts by the shells.

mod answering;
mod asked;
mod bash;
mod fish;
mod listed;
mod page;
mod roff;
mod rows;
mod scripts;
mod text_builder;
mod zsh;

pub use answering::answer;
pub use asked::{Asked, Shell, Topic, asked_in};
