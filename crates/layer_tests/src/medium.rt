//! Tests of flashes and maps, the lowest layers, that no run of the program makes.
//!
//! Expected bytes, sectors and addresses are constants.
mod calls;
mod flash_files;
mod lent_flash;
mod maps;
mod memory_flash;
mod overlay_flash;
mod read_only_flash;
