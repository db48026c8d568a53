//! Tests of a volume as a whole: its bytes against docs/FORMATS.md, changes beside a plain map, and damage beside a
//! plain decoder. They take alp_pages, alp_tables and alp_volume together.
#![tactic(auto)]

#[cfg(test)]
mod tests;
