// What the definitions and proofs of every crate share: a choice by a test, stores into lent memory, and their laws. No code.
#![tactic(auto)]
