// Books and files worked by hand, as tests.

#![tactic(auto)]

#[cfg(test)]
mod files;
#[cfg(test)]
mod lists;
#[cfg(test)]
mod writing;
