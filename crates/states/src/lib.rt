// The states of a translated table: definitions and laws that the translator is proved by. No code.

#![tactic(auto)]
