// Laws of the plan's segments as a value: pick, marks, substitutes and leaps are read from it. No code.
