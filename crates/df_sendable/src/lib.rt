//! Which types may cross threads. There is no code here.
#![tactic(auto)]
