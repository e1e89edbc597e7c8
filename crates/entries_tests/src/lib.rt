// Entries and records of small pages, by numbers worked out by hand.

#![tactic(auto)]

#[cfg(test)]
mod bounds;
#[cfg(test)]
mod helper;
#[cfg(test)]
mod logs;
#[cfg(test)]
mod page_cases;
#[cfg(test)]
mod tables;
