mod stimuli;
