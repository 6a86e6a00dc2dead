//! Tests of the layers, so that their own crates are proved once.
#![tactic(auto)]

#[cfg(test)]
mod bad_lines;
#[cfg(test)]
mod command_parts;
#[cfg(test)]
mod graph_files;
#[cfg(test)]
mod lines_and_labels;
#[cfg(test)]
mod refusal_texts;
#[cfg(test)]
mod reply_lines;
#[cfg(test)]
mod reply_listings;
#[cfg(test)]
mod reply_queries;
#[cfg(test)]
mod script_lines;
#[cfg(test)]
mod tokens;
