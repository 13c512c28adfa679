// Tests of the outside that no row can say: files of a folder.
#![tactic(auto)]

#[cfg(test)]
mod folder;
