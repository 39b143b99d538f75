//! What is told of tables, and of configurations and case files as tables.
#![tactic(auto)]

#[cfg(test)]
mod table_rules;
#[cfg(test)]
mod tables;
#[cfg(test)]
mod whole_configurations;
