//! What a spelling and a reader owe each other, and that this is kept when readers are joined. The
//! laws are over tokens of any kind. There is no code here.
#![tactic(auto)]
