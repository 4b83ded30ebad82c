// Tests of the calls of sheets and of the reader of files at the edges of what they accept, by the numbers of their refusals, and of whole files.
#![tactic(auto)]

#[cfg(test)]
mod drafts;
#[cfg(test)]
mod printing;
#[cfg(test)]
mod readers;
#[cfg(test)]
mod scripts;
#[cfg(test)]
mod searches;
#[cfg(test)]
mod settling;
